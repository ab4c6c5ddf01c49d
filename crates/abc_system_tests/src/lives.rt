//! Calls on live components that no run makes: a component alone, a look at an output, moves at once, and
//! copies.
ghost use Rattle.std.specs.Prelude.{◌≡◌, IfOk, length};
ghost use Rattle.abc_checks.specs.Facts.{IsChecked};

use crate::chosen::program_of;
use abc_moves::{Label, Live};
use abc_shown::{shown_env, shown_label};
use abc_term::Program;
use std::alloc::Global;
use std::process::Abort;
use std::test::Fail;

/// a has two outputs, and b an input that ends in an output, and one that ends in nothing.
const TEXT: &[u8] = b"abc 1;
comp a { n = 3; show n; run (n) @ (tt) . [n := 1] 0 | (2) @ (tt) . 0; }
comp b { x = 1; show x; run ? (tt) ($v) . [x := $v] ($v) @ (tt) . 0 | ? (tt) ($v) . 0; }";

/// The program of the text.
fn two(rt: &impl Abort, alloc: Global) -> Result<Program, Fail>
    ensures checked { IfOk result IsChecked }
    ensures count { IfOk result (λ p. length p.components ≡ 2) }
{
    let program = program_of(rt, alloc, TEXT)?;
    assert!(rt; program.components.len() == 2);
    Ok(program)
}

/// What is said at a place, without a move.
pub fn look(rt: &impl Abort, live: &Live<'_>, place: u32) -> Result<Label, Fail> {
    assert!(rt; place < live.outputs());
    Ok(live.label(place)?)
}

/// What is said at a place, with its move.
pub fn speak(rt: &impl Abort, live: &mut Live<'_>, place: u32) -> Result<Label, Fail> {
    assert!(rt; place < live.outputs());
    Ok(live.speak(place)?)
}

pub fn hear(rt: &impl Abort, live: &mut Live<'_>, label: &Label, place: u32) -> Result<(), Fail> {
    assert!(rt; place < live.inputs(label));
    Ok(live.hear(label, place)?)
}

/// Wants what the label says and shows.
fn says(
    rt: &impl Abort,
    alloc: Global,
    program: &Program,
    label: &Label,
    wanted: &str,
) -> Result<(), Fail> {
    let line = shown_label(alloc, program.names.as_slice(), label)?;
    assert_eq!(rt; line.as_slice(), wanted.as_bytes());
    Ok(())
}

/// Wants the number of outputs and the attributes.
fn stands(
    rt: &impl Abort,
    alloc: Global,
    program: &Program,
    live: &Live<'_>,
    wanted: (u32, &str),
) -> Result<(), Fail> {
    let (outputs, env) = wanted;
    assert_eq!(rt; live.outputs(), outputs);
    let line = shown_env(alloc, program.names.as_slice(), live.env())?;
    assert_eq!(rt; line.as_slice(), env.as_bytes());
    Ok(())
}

#[test]
fn labels_move_nothing(rt: HostRuntime) -> Result<(), Fail> {
    let alloc = rt.alloc();
    let program = two(&rt, alloc)?;
    let mut live = Live::start(alloc, &program, 0)?;
    let second = look(&rt, &live, 1)?;
    says(&rt, alloc, &program, &second, "(2){n=3;}")?;
    let first = look(&rt, &live, 0)?;
    says(&rt, alloc, &program, &first, "(3){n=3;}")?;
    stands(&rt, alloc, &program, &live, (2, "{n=3;}"))?;
    let said = speak(&rt, &mut live, 0)?;
    says(&rt, alloc, &program, &said, "(3){n=3;}")?;
    stands(&rt, alloc, &program, &live, (1, "{n=1;}"))
}

#[test]
fn copies_speak_apart(rt: HostRuntime) -> Result<(), Fail> {
    let alloc = rt.alloc();
    let program = two(&rt, alloc)?;
    let live = Live::start(alloc, &program, 0)?;
    let mut copied = live.copy()?;
    let said = speak(&rt, &mut copied, 0)?;
    says(&rt, alloc, &program, &said, "(3){n=3;}")?;
    stands(&rt, alloc, &program, &copied, (1, "{n=1;}"))?;
    stands(&rt, alloc, &program, &live, (2, "{n=3;}"))
}

/// A copy that has heard the label.
fn heard_by_copy<'p>(
    rt: &impl Abort,
    alloc: Global,
    program: &'p Program,
    live: &Live<'p>,
    label: &Label,
) -> Result<Live<'p>, Fail> {
    let mut copied = live.copy()?;
    hear(rt, &mut copied, label, 0)?;
    stands(rt, alloc, program, &copied, (1, "{x=3;}"))?;
    assert_eq!(rt; copied.inputs(label), 1);
    Ok(copied)
}

/// What a component has heard goes with its copy, which speaks apart.
fn said_by_copy(
    rt: &impl Abort,
    alloc: Global,
    program: &Program,
    live: &Live<'_>,
) -> Result<(), Fail> {
    let mut again = live.copy()?;
    let said = speak(rt, &mut again, 0)?;
    says(rt, alloc, program, &said, "(3){x=3;}")?;
    stands(rt, alloc, program, &again, (0, "{x=3;}"))?;
    stands(rt, alloc, program, live, (1, "{x=3;}"))
}

/// What the first component says at its first place.
fn first_label(rt: &impl Abort, alloc: Global, program: &Program) -> Result<Label, Fail>
    requires checked { IsChecked program.now }
    requires two { length program.now.components ≡ 2 }
{
    let speaker = Live::start(alloc, program, 0)?;
    look(rt, &speaker, 0)
}

fn hears_apart(rt: &impl Abort, alloc: Global, program: &Program, label: &Label) -> Result<(), Fail>
    requires checked { IsChecked program.now }
    requires two { length program.now.components ≡ 2 }
{
    let live = Live::start(alloc, program, 1)?;
    let copied = heard_by_copy(rt, alloc, program, &live, label)?;
    stands(rt, alloc, program, &live, (0, "{x=1;}"))?;
    assert_eq!(rt; live.inputs(label), 2);
    said_by_copy(rt, alloc, program, &copied)
}

#[test]
fn copies_hear_apart(rt: HostRuntime) -> Result<(), Fail> {
    let alloc = rt.alloc();
    let program = two(&rt, alloc)?;
    let label = first_label(&rt, alloc, &program)?;
    hears_apart(&rt, alloc, &program, &label)
}

/// What the first component says as it makes its second output, and then its first.
fn both_said(rt: &impl Abort, alloc: Global, program: &Program) -> Result<(Label, Label), Fail>
    requires checked { IsChecked program.now }
    requires two { length program.now.components ≡ 2 }
{
    let mut live = Live::start(alloc, program, 0)?;
    let first = speak(rt, &mut live, 1)?;
    let second = speak(rt, &mut live, 0)?;
    assert!(rt; !live.can_speak());
    Ok((first, second))
}

/// The second component hears the second message at its second input, and then the first at the one
/// that is left.
fn both_heard(
    rt: &impl Abort,
    alloc: Global,
    program: &Program,
    first: &Label,
    second: &Label,
) -> Result<(), Fail>
    requires checked { IsChecked program.now }
    requires two { length program.now.components ≡ 2 }
{
    let mut other = Live::start(alloc, program, 1)?;
    hear(rt, &mut other, second, 1)?;
    hear(rt, &mut other, first, 0)?;
    assert_eq!(rt; other.inputs(first), 0);
    stands(rt, alloc, program, &other, (1, "{x=2;}"))
}

/// A place that isn't there any more is none after each move, and an input that was made takes no message.
#[test]
fn moves_are_made_once(rt: HostRuntime) -> Result<(), Fail> {
    let alloc = rt.alloc();
    let program = two(&rt, alloc)?;
    let (first, second) = both_said(&rt, alloc, &program)?;
    says(&rt, alloc, &program, &first, "(2){n=3;}")?;
    says(&rt, alloc, &program, &second, "(3){n=3;}")?;
    both_heard(&rt, alloc, &program, &first, &second)
}
