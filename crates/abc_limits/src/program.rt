//! The limits of a program.
ghost use Rattle.std.specs.Prelude.{◌≡◌, ◌<◌, ◌≤◌, ◌+◌, ◌^◌, true, length, IfNone, unwrap_or};
ghost use Rattle.abc_grammar.specs.Limits.{opens as opens_bracket};
ghost use Rattle.abc_limits.specs.Written.{scalars_of};
ghost use Rattle.abc_limits.specs.Walking as spec;
ghost use Rattle.abc_limits.specs.Rooms as rooms;
ghost use Rattle.abc_limits.specs.FirstLimit.{IsLimitOf};

use crate::brackets::{Brackets, room_in};
use crate::look::{closes, closes_round, ends_list, is_comma, is_set, opens, starts_item};
use crate::scalars::{Written, is_full, written_behind};
use abc_cause::Cause;
use abc_grammar::{Lexeme, MOST_OPEN, MOST_TOKENS};

/// What going over the tokens of a program finds first.
#[derive(Clone, Copy, Debug, PartialEq, Eq)]
pub enum Limit {
    /// No token passes a limit.
    Within,
    /// The token of this number passes a limit, if the tokens before it begin a program.
    Passed(usize, Cause),
    /// Up to and with the token of this number the tokens begin no program.
    Stray(usize),
}

/// What the tokens before a token come to.
#[derive(Drop)]
pub struct Walk {
    pub brackets: Brackets,
    /// Whether the last token is `set`.
    pub behind_word: bool,
    /// Whether the last token closes a `set(..)`.
    pub behind_list: bool,
    /// How many tokens the definition or the component has, from its first word on.
    pub item: Option<usize>,
    pub written: Written,
}

fn item_behind(item: Option<usize>, lexeme: &Lexeme) -> Option<usize>
    requires { unwrap_or item 0 < 2 ^ 63 }
    ensures value { result ≡ spec.item_behind item lexeme.now }
    ensures grows { unwrap_or result 0 ≤ unwrap_or item 0 + 1 }
{
    if starts_item(lexeme) {
        return Some(1);
    }
    match item {
        None => None,
        Some(count) => Some(count + 1),
    }
}

fn is_whole(item: Option<usize>) -> bool
    ensures { result ≡ spec.is_whole item }
{
    match item {
        None => false,
        Some(count) => count == MOST_TOKENS,
    }
}

/// The brackets behind a token.
fn meet(brackets: &mut Brackets, behind_word: bool, lexeme: &Lexeme)
    requires { opens_bracket lexeme.now ≡ true → length brackets.old.around < MOST_OPEN }
    ensures { brackets.new ≡ rooms.rooms_behind brackets.old behind_word lexeme.now }
{
    if opens(lexeme) {
        brackets.enter(room_in(lexeme, behind_word));
    } else if closes(lexeme) {
        brackets.leave();
    } else if is_comma(lexeme) {
        brackets.part();
    }
}

impl Walk {
    fn start() -> Walk
        ensures { spec.state_of result ≡ spec.start }
    {
        Walk {
            brackets: Brackets::none(),
            behind_word: false,
            behind_list: false,
            item: None,
            written: Written::Outside,
        }
    }

    /// What is found at the next token, which has this number.
    fn limit_at(&self, number: usize, lexeme: &Lexeme) -> Option<Limit>
        ensures value { result ≡ spec.limit_at (spec.state_of self.now) lexeme.now number }
        ensures room { IfNone result (opens_bracket lexeme.now ≡ true → length self.now.brackets.around < MOST_OPEN) }
    {
        if opens(lexeme) && MOST_OPEN <= self.brackets.depth() {
            Some(Limit::Passed(number, Cause::TooDeep))
        } else if !starts_item(lexeme) && is_whole(self.item) {
            Some(Limit::Passed(number, Cause::TooLarge))
        } else if self.brackets.is_used_up() {
            Some(Limit::Passed(number, Cause::LongTuple))
        } else if is_full(self.written) {
            Some(Limit::Passed(number, Cause::LongSet))
        } else if self.behind_list && ends_list(lexeme) {
            Some(Limit::Stray(number))
        } else {
            None
        }
    }

    fn step(&mut self, lexeme: &Lexeme)
        requires room { opens_bracket lexeme.now ≡ true → length self.old.brackets.around < MOST_OPEN }
        requires item { unwrap_or self.old.item 0 < 2 ^ 63 }
        requires written { scalars_of self.old.written < 2 ^ 63 }
        ensures value { spec.state_of self.new ≡ spec.step (spec.state_of self.old) lexeme.now }
        ensures item { unwrap_or self.new.item 0 ≤ unwrap_or self.old.item 0 + 1 }
        ensures written { scalars_of self.new.written ≤ scalars_of self.old.written + 1 }
    {
        self.behind_list = closes_round(lexeme) && self.brackets.is_free();
        meet(&mut self.brackets, self.behind_word, lexeme);
        self.behind_word = is_set(lexeme);
        self.item = item_behind(self.item, lexeme);
        self.written = written_behind(self.written, lexeme);
    }
}

/// What is found first, token by token.
#[tactic(auto, unfolding(crate::specs::Walking::limit_of))]
fn limit_of(lexemes: &[Lexeme]) -> Limit
    ensures { result ≡ spec.limit_of lexemes.now }
{
    let mut walk = Walk::start();
    let mut number = 0;
    let mut rest = lexemes;
    while let Some((lexeme, more)) = rest.split_first() {
        if let Some(limit) = walk.limit_at(number, lexeme) {
            return limit;
        }
        walk.step(lexeme);
        number += 1;
        rest = more;
    }
    Limit::Within
}

/// The first token of a program that passes a limit, and the first limit that it passes; or a token with
/// which the tokens begin no program, where none before it passes a limit.
pub fn first_limit(lexemes: &[Lexeme]) -> Limit
    ensures { IsLimitOf lexemes.now result }
{
    limit_of(lexemes)
}
