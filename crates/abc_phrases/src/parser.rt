//! The parser: the tokens that are left, and what its methods answer.
ghost use Rattle.std.specs.Prelude.{◌≡◌, ◌<◌, ◌≤◌, [], ◌∷◌, length, OnOk, MatchOption};
ghost use Rattle.abc_readers.specs.Operands as spec;
ghost use Rattle.abc_readers.specs.Preds as spec_pred;
ghost use Rattle.abc_phrases.specs.Answers.{Answers};
ghost use Rattle.abc_phrases.specs.Fitting.{SetsFit};

use abc_cause::Cause;
use abc_grammar::{Keyword, Lexeme, Mark};
use abc_value::NoMemory;
use std::alloc::Global;

/// Why reading stops without a term.
#[derive(Clone, Copy, Debug, PartialEq, Eq)]
pub enum Stop {
    /// The next token is refused.
    Refused(Cause),
    NoMemory,
}

impl From<NoMemory> for Stop {
    ghost use Rattle.std.specs.Prelude.{◌≡◌};
    ghost use Rattle.abc_phrases.specs.declared.parser.Stop.TheVariants.{NoMemory as NoMemoryStop};

    ghost from_gives = { λ _ e. e ≡ NoMemoryStop };

    fn from(_: NoMemory) -> Stop {
        Stop::NoMemory
    }
}

/// A term that was read, to its end or as far as it goes.
#[derive(Debug, Drop)]
pub enum Part<A> {
    /// No token that is left goes on with the term.
    Whole(A),
    /// A token that is left goes on with the term, and what it needs was refused for this cause.
    Cut(A, Cause),
}

/// The tokens that are left of a list in which no set literal is too long.
#[derive(Clone, Copy, Drop)]
pub struct Left<'t> {
    lexemes: &'t [Lexeme],
    pub ghost fits: { SetsFit lexemes.now },
}

impl<'t> Left<'t> {
    /// All of the tokens.
    pub fn of(lexemes: &'t [Lexeme]) -> Left<'t>
        requires { SetsFit lexemes.now }
        ensures { result.lexemes.now ≡ lexemes.now }
    {
        Left { lexemes }
    }

    /// The next token, and those after it.
    pub fn split_first(self) -> Option<(&'t Lexeme, Left<'t>)>
        ensures { MatchOption result (self.entry.lexemes.now ≡ []) (λ x. self.entry.lexemes.now ≡ x.0.now ∷ x.1.lexemes.now) }
    {
        let (first, more) = self.lexemes.split_first()?;
        Some((first, Left { lexemes: more }))
    }

    /// How many tokens are left.
    pub fn len(self) -> usize
        ensures { result ≡ length self.entry.lexemes.now }
    {
        self.lexemes.len()
    }
}

/// What is left of the tokens.
#[derive(Drop)]
pub struct Parser<'t> {
    pub rest: Left<'t>,
    /// Behind a term that was cut: what is left from the refused token on.
    pub ahead: Left<'t>,
    pub alloc: Global,
}

impl<'t> Parser<'t> {
    /// The next token, and those after it.
    pub fn next(&self) -> Option<(&'t Lexeme, Left<'t>)>
        ensures { MatchOption result (self.now.rest.lexemes.now ≡ []) (λ x. self.now.rest.lexemes.now ≡ x.0.now ∷ x.1.lexemes.now) }
    {
        self.rest.split_first()
    }

    /// Ends a term before the token that was to go on with it, since what stands here is refused.
    pub fn cut<A>(&mut self, before: Left<'t>, term: A, cause: Cause) -> Part<A>
        ensures part { result ≡ Part.Cut term cause }
        ensures rest { self.new.rest.lexemes.now ≡ before.entry.lexemes.now }
        ensures ahead { self.new.ahead.lexemes.now ≡ self.old.rest.lexemes.now }
    {
        self.ahead = self.rest;
        self.rest = before;
        Part::Cut(term, cause)
    }

    /// `)`
    pub fn close_round(&mut self) -> Result<(), Stop>
        ensures reads { Answers (λ u. u) (spec.close_round tt self.old.rest.lexemes.now) result self.new.rest.lexemes.now }
        ensures shorter { OnOk result (length self.new.rest.lexemes.now < length self.old.rest.lexemes.now) }
    {
        match self.next() {
            Some((Lexeme::Mark(Mark::CloseRound), more)) => {
                self.rest = more;
                Ok(())
            }
            _ => Err(Stop::Refused(Cause::Syntax)),
        }
    }

    /// `}`
    pub fn close_curly(&mut self) -> Result<(), Stop>
        ensures reads { Answers (λ u. u) (spec.close_curly tt self.old.rest.lexemes.now) result self.new.rest.lexemes.now }
        ensures shorter { OnOk result (length self.new.rest.lexemes.now < length self.old.rest.lexemes.now) }
    {
        match self.next() {
            Some((Lexeme::Mark(Mark::CloseCurly), more)) => {
                self.rest = more;
                Ok(())
            }
            _ => Err(Stop::Refused(Cause::Syntax)),
        }
    }

    /// `]`
    pub fn close_square(&mut self) -> Result<(), Stop>
        ensures reads { Answers (λ u. u) (spec_pred.close_square tt self.old.rest.lexemes.now) result self.new.rest.lexemes.now }
        ensures shorter { OnOk result (length self.new.rest.lexemes.now < length self.old.rest.lexemes.now) }
    {
        match self.next() {
            Some((Lexeme::Mark(Mark::CloseSquare), more)) => {
                self.rest = more;
                Ok(())
            }
            _ => Err(Stop::Refused(Cause::Syntax)),
        }
    }
}
