//! The open brackets behind some tokens of a program.
ghost use Rattle.std.specs.Prelude.{◌≡◌, ◌<◌, ◌≤◌, length};
ghost use Rattle.abc_limits.specs.Rooms as spec;

use abc_grammar::{Lexeme, MOST_OPEN, MOST_PARTS, Mark};
use arrayvec::ArrayVec;
use std::marker::Model;

/// The open brackets: how many more commas may stand in each, or `None` where any number may.
#[derive(Drop)]
pub struct Brackets {
    /// In the innermost one, or outside all of them.
    room: Option<usize>,
    /// Outside all of them, and then in each but the innermost one.
    around: ArrayVec<Option<usize>, MOST_OPEN>,
}

impl Model for Brackets {
    ghost use Rattle.std.specs.Prelude.{reverse};
    ghost use Rattle.abc_limits.specs.Rooms.{Rooms};

    ghost Value = { Rooms };

    ghost view = { λ b. record { room = b.room; around = reverse b.around.items } };
}

/// How many commas may stand in a bracket that a token opens: behind `set`, any number.
pub fn room_in(lexeme: &Lexeme, behind_word: bool) -> Option<usize>
    ensures { result ≡ spec.room_in lexeme.now behind_word }
{
    match lexeme {
        Lexeme::Mark(Mark::OpenRound) => { if behind_word { None } else { Some(MOST_PARTS) } }
        _ => None,
    }
}

impl Brackets {
    pub fn none() -> Brackets
        ensures { result ≡ spec.outside }
    {
        Brackets {
            room: None,
            around: ArrayVec::new(),
        }
    }

    /// How many are open.
    pub fn depth(&self) -> usize
        ensures { result ≡ length self.now.around }
    {
        self.around.len()
    }

    /// Whether the innermost one may hold any number of parts.
    pub fn is_free(&self) -> bool
        ensures { result ≡ spec.is_free self.now }
    {
        self.room.is_none() && !self.around.is_empty()
    }

    /// Whether the next token begins a part too many.
    pub fn is_used_up(&self) -> bool
        ensures { result ≡ spec.is_used_up self.now.room }
    {
        match self.room {
            None => false,
            Some(room) => room == 0,
        }
    }

    pub fn enter(&mut self, room: Option<usize>)
        requires { length self.old.around < MOST_OPEN }
        ensures { self.new ≡ spec.entered room self.old }
    {
        self.around.push(self.room);
        self.room = room;
    }

    pub fn leave(&mut self)
        ensures { self.new ≡ spec.left_into self.old.around }
    {
        self.room = match self.around.pop() {
            None => None,
            Some(room) => room,
        };
    }

    /// Behind a comma.
    pub fn part(&mut self)
        ensures { self.new ≡ spec.parted self.old }
    {
        self.room = match self.room {
            None => None,
            Some(room) => Some(room.saturating_sub(1)),
        };
    }
}
