//! The longest front of a list of lexemes that is a predicate.
ghost use Rattle.std.specs.Prelude.{◌≡◌, ◌<◌, ◌≤◌, ◌+◌, length, take, IfOk, Some};
ghost use Rattle.abc_limits.specs.Limiting.{first_limit};
ghost use Rattle.abc_phrases.specs.Fitting.{SetsFit};
ghost use Rattle.abc_parse.specs.Fronting.{IsTried, IsFrontOf};

use abc_cause::Cause;
use abc_grammar::Lexeme;
use abc_limits::first_limit_of_pred;
use abc_phrases::{Left, Parser, Part, Stop};
use abc_pred::Pred;
use abc_value::NoMemory;
use std::alloc::Global;

/// What reading a predicate from some lexemes comes to, limits aside.
#[derive(Drop)]
pub enum Tried {
    /// The longest front that is a predicate, with its number of lexemes.
    Pred(Pred, usize),
    /// No front is one: the lexeme of this number goes on with none.
    Refused(usize),
    /// No front is one, and all the lexemes begin one.
    Ends,
}

/// What a list of lexemes begins with.
#[derive(Drop)]
pub enum Front {
    /// The longest front that is a predicate, with its number of lexemes.
    Pred(Pred, usize),
    /// No front is a predicate, and this cause applies at the lexeme of this number.
    Refused(usize, Cause),
    /// No front is a predicate, and all the lexemes begin one: what follows them is to be refused.
    Ends,
}

fn try_front(alloc: Global, lexemes: &[Lexeme]) -> Result<Tried, NoMemory>
    requires fits { SetsFit lexemes.now }
    ensures { IfOk result (λ t. IsTried lexemes.now t) }
{
    let left = Left::of(lexemes);
    let mut parser = Parser {
        rest: left,
        ahead: left,
        alloc,
    };
    match parser.pred() {
        Ok(Part::Whole(found)) => Ok(Tried::Pred(found, lexemes.len() - parser.rest.len())),
        Ok(Part::Cut(found, _)) => Ok(Tried::Pred(found, lexemes.len() - parser.rest.len())),
        Err(Stop::NoMemory) => Err(NoMemory),
        Err(Stop::Refused(_)) => {
            if parser.rest.len() == 0 {
                Ok(Tried::Ends)
            } else {
                Ok(Tried::Refused(lexemes.len() - parser.rest.len()))
            }
        }
    }
}

/// What is wrong at a lexeme that passes a limit, where all the lexemes before it begin a predicate.
fn limited(
    alloc: Global,
    lexemes: &[Lexeme],
    number: usize,
    cause: Cause,
) -> Result<Front, NoMemory>
    requires limit { first_limit lexemes.now ≡ Some (number, cause) }
    requires ends { IsTried (take number lexemes.now) Tried.Ends }
    ensures { IfOk result (λ f. IsFrontOf lexemes.now f) }
{
    let size = lexemes.len();
    prove!(number < size);
    let (with, _) = lexemes.split_at(number + 1);
    match try_front(alloc, with)? {
        Tried::Refused(_) => Ok(Front::Refused(number, Cause::Syntax)),
        Tried::Pred(found, _) => {
            drop(found);
            Ok(Front::Refused(number, cause))
        }
        Tried::Ends => Ok(Front::Refused(number, cause)),
    }
}

/// The longest front that is a predicate within its limits, or the first thing wrong.
pub fn front_of(alloc: Global, lexemes: &[Lexeme]) -> Result<Front, NoMemory>
    ensures { IfOk result (λ f. IsFrontOf lexemes.now f) }
{
    match first_limit_of_pred(lexemes) {
        None => match try_front(alloc, lexemes)? {
            Tried::Pred(found, count) => Ok(Front::Pred(found, count)),
            Tried::Refused(number) => Ok(Front::Refused(number, Cause::Syntax)),
            Tried::Ends => Ok(Front::Ends),
        },
        Some((number, cause)) => {
            let (before, _) = lexemes.split_at(number);
            match try_front(alloc, before)? {
                Tried::Pred(found, count) => Ok(Front::Pred(found, count)),
                Tried::Refused(number) => Ok(Front::Refused(number, Cause::Syntax)),
                Tried::Ends => limited(alloc, lexemes, number, cause),
            }
        }
    }
}
