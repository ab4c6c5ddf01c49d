//! How long live components take: the words say what is built, its size, and how often it is walked.
//!
//! - `left N S`, `right N S`: a chain of N outputs joined by `+`, to the left or to the right; S walks, each
//!   for the label of another output.
//! - `calls N S`: N definitions, of which a component calls the last, an output before its own call; S steps.
//!
//! It prints the sum of the values said. docs/SPEED.md says how it is run and what was seen.
#![tactic(auto)]

ghost use Rattle.std.specs.Prelude.{◌<◌, ◌^◌, length};
ghost use Rattle.abc_checks.specs.Facts.{IsChecked};

use abc_checks::check;
use abc_drafts::{Draft, Mistake};
use abc_moves::{Label, Live};
use abc_pred::Name;
use abc_term::Program;
use abc_value::{Scalar, Value};
use std::alloc::Global;
use std::process::ExitCode;
use std::rt::Env;
use std::{env, io};

/// What is built.
#[derive(Clone, Copy, PartialEq, Eq)]
enum Shape {
    Left,
    Right,
    Calls,
}

fn shape_of(word: &str) -> Result<Shape, Mistake> {
    match word {
        "left" => Ok(Shape::Left),
        "right" => Ok(Shape::Right),
        "calls" => Ok(Shape::Calls),
        _ => Err(Mistake::UnknownWord),
    }
}

fn number_of(word: &str) -> Result<u32, Mistake> {
    match word.parse::<u32>() {
        Ok(number) => Ok(number),
        Err(_) => Err(Mistake::UnknownWord),
    }
}

/// That many outputs, each of its number, joined by `+` as they come.
fn put_left(draft: &mut Draft, count: u32) -> Result<(), Mistake> {
    for number in 0..count {
        draft.nil()?;
        draft.say(i64::from(number))?;
        if number > 0 {
            draft.choice()?;
        }
    }
    Ok(())
}

/// The same, joined when all have come.
fn put_right(draft: &mut Draft, count: u32) -> Result<(), Mistake> {
    for number in 0..count {
        draft.nil()?;
        draft.say(i64::from(number))?;
    }
    for _ in 1..count {
        draft.choice()?;
    }
    Ok(())
}

/// That many definitions, each an output before its own call, and a call of the last.
fn put_calls(draft: &mut Draft, count: u32) -> Result<(), Mistake> {
    for number in 0..count {
        draft.call(Name(number))?;
        draft.say(1)?;
        draft.define(Name(number))?;
    }
    draft.call(Name(count.saturating_sub(1)))
}

fn program_of(alloc: Global, shape: Shape, size: u32) -> Result<Program, Mistake> {
    let mut draft = Draft::new(alloc);
    match shape {
        Shape::Left => put_left(&mut draft, size)?,
        Shape::Right => put_right(&mut draft, size)?,
        Shape::Calls => put_calls(&mut draft, size)?,
    }
    draft.component(Name(0))?;
    draft.program(size)
}

/// The first value of the message, where it is a number.
fn said(label: &Label) -> i64 {
    match label.values.as_slice().first() {
        Some(Value::Scalar(Scalar::Number(number))) => *number,
        _ => 0,
    }
}

/// The sum of what that many outputs say, none of which is made.
fn walked(live: &Live<'_>, walks: u32) -> Result<i64, Mistake> {
    let mut sum = 0i64;
    for walk in 0..walks {
        let count = live.outputs();
        if count > 0 {
            let label = live.label(walk.wrapping_mul(7919) % count)?;
            sum = sum.saturating_add(said(&label));
        }
    }
    Ok(sum)
}

/// The sum of what is said in that many steps.
fn stepped(live: &mut Live<'_>, steps: u32) -> Result<i64, Mistake> {
    let mut sum = 0i64;
    for _ in 0..steps {
        if live.can_speak() {
            let label = live.speak(0)?;
            sum = sum.saturating_add(said(&label));
        }
    }
    Ok(sum)
}

fn sum_of(alloc: Global, program: &Program, shape: Shape, often: u32) -> Result<i64, Mistake>
    requires checked { IsChecked program.now }
    requires some { 0 < length program.now.components }
{
    let mut live = Live::start(alloc, program, 0)?;
    if shape == Shape::Calls {
        stepped(&mut live, often)
    } else {
        walked(&live, often)
    }
}

/// What the words ask for.
fn measured(alloc: Global, words: &[String]) -> Result<i64, Mistake> {
    let [shape, size, often] = words else {
        return Err(Mistake::UnknownWord);
    };
    let shape = shape_of(shape.as_str())?;
    let program = program_of(alloc, shape, number_of(size.as_str())?)?;
    if program.components.len() != 1 || program.definitions.len() > 100_000 {
        return Err(Mistake::TooLong);
    }
    match check(alloc, &program) {
        Ok(()) => sum_of(alloc, &program, shape, number_of(often.as_str())?),
        Err(_) => Err(Mistake::Refused),
    }
}

/// The program's arguments after its own name.
fn words<R: Env + AllocGlobal>(rt: &R) -> io::Result<Vec<String>> {
    let args = env::args(rt)?;
    Ok(args.skip(1).collect(rt.alloc())?)
}

fn main(rt: HostRuntime) -> ExitCode {
    let Ok(words) = words(&rt) else {
        return ExitCode::FAILURE;
    };
    match measured(rt.alloc(), words.as_slice()) {
        Ok(sum) => match println!(rt; "{sum}") {
            Ok(()) => ExitCode::SUCCESS,
            Err(_) => ExitCode::FAILURE,
        },
        Err(_) => ExitCode::FAILURE,
    }
}
