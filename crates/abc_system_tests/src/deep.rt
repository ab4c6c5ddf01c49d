//! Chains as long as the checks let through, which no text has in one piece: they are walked within the
//! stack.
ghost use Rattle.std.specs.Prelude.{◌≡◌, length};
ghost use Rattle.abc_checks.specs.Facts.{IsChecked};

use crate::lives::{hear, speak};
use abc_checks::check;
use abc_drafts::{Draft, Mistake};
use abc_moves::{Label, Live};
use abc_pred::Name;
use abc_term::Program;
use std::alloc::Global;
use std::process::Abort;
use std::test::Fail;

/// The first component has that many outputs. The last one is made, and none is left.
fn speaks_last(rt: &impl Abort, alloc: Global, program: &Program, moves: u32) -> Result<Label, Fail>
    requires checked { IsChecked program.now }
    requires two { length program.now.components ≡ 2 }
{
    let mut speaker = Live::start(alloc, program, 0)?;
    assert_eq!(rt; speaker.outputs(), moves);
    let label = speak(rt, &mut speaker, moves.saturating_sub(1))?;
    assert_eq!(rt; speaker.outputs(), 0);
    Ok(label)
}

/// The second component has that many inputs for the message. The last one is made, and none is left.
fn hears_last(
    rt: &impl Abort,
    alloc: Global,
    program: &Program,
    label: &Label,
    moves: u32,
) -> Result<(), Fail>
    requires checked { IsChecked program.now }
    requires two { length program.now.components ≡ 2 }
{
    let mut hearer = Live::start(alloc, program, 1)?;
    assert_eq!(rt; hearer.inputs(label), moves);
    hear(rt, &mut hearer, label, moves.saturating_sub(1))?;
    assert_eq!(rt; hearer.inputs(label), 0);
    Ok(())
}

/// The last output and the last input are made.
fn plays_last(rt: &impl Abort, alloc: Global, program: &Program, moves: u32) -> Result<(), Fail>
    requires { IsChecked program.now }
{
    assert!(rt; program.components.len() == 2);
    let label = speaks_last(rt, alloc, program, moves)?;
    hears_last(rt, alloc, program, &label, moves)
}

/// Checks the program of the draft, and makes its last moves.
fn plays(rt: &impl Abort, alloc: Global, draft: Draft, moves: u32) -> Result<(), Fail> {
    let program = draft.program(0)?;
    assert!(rt; program.components.len() < 10 && program.definitions.len() < 10);
    match check(alloc, &program) {
        Ok(()) => plays_last(rt, alloc, &program, moves),
        Err(_) => Err(Mistake::Refused)?,
    }
}

/// An action with 0 behind it: an output, or an input.
fn put_action(draft: &mut Draft, speaks: bool) -> Result<(), Mistake> {
    draft.nil()?;
    if speaks {
        draft.say(1)
    } else {
        draft.input(&[Name(0)])
    }
}

/// So many actions with `+` between them.
fn put_choices(draft: &mut Draft, speaks: bool, count: u32) -> Result<(), Mistake> {
    put_action(draft, speaks)?;
    for _ in 1..count {
        put_action(draft, speaks)?;
        draft.choice()?;
    }
    Ok(())
}

/// An action behind so many guards.
fn put_guarded(draft: &mut Draft, speaks: bool, count: u32) -> Result<(), Mistake> {
    put_action(draft, speaks)?;
    for _ in 0..count {
        draft.guard()?;
    }
    Ok(())
}

#[test]
fn long_choices(rt: HostRuntime) -> Result<(), Fail> {
    let mut draft = Draft::new(rt.alloc());
    put_choices(&mut draft, true, 1024)?;
    draft.component(Name(1))?;
    put_choices(&mut draft, false, 1024)?;
    draft.component(Name(2))?;
    plays(&rt, rt.alloc(), draft, 1024)
}

#[test]
fn deep_guards(rt: HostRuntime) -> Result<(), Fail> {
    let mut draft = Draft::new(rt.alloc());
    put_guarded(&mut draft, true, 2000)?;
    draft.component(Name(1))?;
    put_guarded(&mut draft, false, 2000)?;
    draft.component(Name(2))?;
    plays(&rt, rt.alloc(), draft, 1)
}
