//! A list of lexemes as the text of a program.
ghost use Rattle.std.specs.Prelude.{IfOk};
ghost use Rattle.abc_phrases.specs.Fitting.{SetsFit};
ghost use Rattle.abc_limits.specs.FirstLimit.{IsPassed, IsStray};
ghost use Rattle.abc_parse.specs.Programs.{IsTriedAs, IsFoundIn};

use crate::program::{Items, whole_program};
use abc_cause::Cause;
use abc_grammar::Lexeme;
use abc_limits::{Limit, first_limit};
use abc_phrases::{Left, Parser, Stop};
use abc_value::NoMemory;
use std::alloc::Global;

/// What reading a program from some lexemes comes to, limits aside.
#[derive(Drop)]
pub enum Tried {
    Program(Items),
    /// The lexeme of this number goes on with none.
    Refused(usize),
    /// All the lexemes begin a program, and they are none.
    Ends,
}

/// What some lexemes are as a text.
#[derive(Drop)]
pub enum Found {
    /// A program within its limits.
    Program(Items),
    /// This is the first cause against them, at the lexeme of this number.
    Refused(usize, Cause),
    /// All the lexemes begin a program, and they are none: what follows them is to be refused.
    Ends,
}

fn try_program(alloc: Global, lexemes: &[Lexeme]) -> Result<Tried, NoMemory>
    requires fits { SetsFit lexemes.now }
    ensures { IfOk result (IsTriedAs lexemes.now) }
{
    let left = Left::of(lexemes);
    let mut parser = Parser {
        rest: left,
        ahead: left,
        alloc,
    };
    match whole_program(&mut parser) {
        Ok(items) => Ok(Tried::Program(items)),
        Err(Stop::NoMemory) => Err(NoMemory),
        Err(Stop::Refused(_)) => {
            if parser.rest.len() == 0 {
                Ok(Tried::Ends)
            } else {
                Ok(Tried::Refused(lexemes.len() - parser.rest.len()))
            }
        }
    }
}

/// The lexemes up to and with the first one that passes a limit: they are refused before it, or at it for its
/// syntax, or at it for the limit.
fn limited(
    alloc: Global,
    lexemes: &[Lexeme],
    number: usize,
    cause: Cause,
) -> Result<Found, NoMemory>
    requires limit { IsPassed lexemes.now number cause }
    ensures { IfOk result (IsFoundIn lexemes.now) }
{
    let (front, _) = lexemes.split_at(number + 1);
    match try_program(alloc, front)? {
        Tried::Refused(place) => Ok(Found::Refused(place, Cause::Syntax)),
        Tried::Ends => Ok(Found::Refused(number, cause)),
        Tried::Program(items) => {
            drop(items);
            Ok(Found::Refused(number, cause))
        }
    }
}

/// The lexemes up to and with one with which no program goes on: they are refused before it or at it.
fn stray(alloc: Global, lexemes: &[Lexeme], number: usize) -> Result<Found, NoMemory>
    requires stray { IsStray lexemes.now number }
    ensures { IfOk result (IsFoundIn lexemes.now) }
{
    let (front, _) = lexemes.split_at(number + 1);
    match try_program(alloc, front)? {
        Tried::Refused(place) => Ok(Found::Refused(place, Cause::Syntax)),
        Tried::Ends => unreachable!(),
        Tried::Program(_) => unreachable!(),
    }
}

/// What the lexemes are as a text: a program within its limits, or the first thing wrong with them.
pub fn read_program(alloc: Global, lexemes: &[Lexeme]) -> Result<Found, NoMemory>
    ensures { IfOk result (IsFoundIn lexemes.now) }
{
    match first_limit(lexemes) {
        Limit::Passed(number, cause) => limited(alloc, lexemes, number, cause),
        Limit::Stray(number) => stray(alloc, lexemes, number),
        Limit::Within => match try_program(alloc, lexemes)? {
            Tried::Program(items) => Ok(Found::Program(items)),
            Tried::Refused(number) => Ok(Found::Refused(number, Cause::Syntax)),
            Tried::Ends => Ok(Found::Ends),
        },
    }
}
