//! Runs in which each act that is refused for want of memory is done a second time. They are the same,
//! whichever allocation fails.
ghost use Rattle.abc_checks.specs.Facts.{IsChecked};

use crate::chosen::program_of;
use abc_packet::Choice;
use abc_shown::{choice_of, shown_run};
use abc_system::{Run, StepRow, System};
use abc_term::Program;
use abc_value::{List, NoMemory, ShortText};
use std::alloc::Global;
use std::process::Abort;
use std::test::Fail;

/// Each update makes its attribute rise, through calls.
const CALLS: &[u8] = b"abc 1;
def Either = Ping + Stop;
def Ping = (\"ping\", n) @ (kind = \"pong\") . [n := n + 1] Wait;
def Wait = ? ($m = \"pong\") ($m, $k) . Either;
def Stop = (\"stop\", n) @ (tt) . 0;
def Pong = ? ($m = \"ping\") ($m, $k) . [n := $k] (\"pong\", $k) @ (kind = \"ping\") . Pong
  + ? ($m = \"stop\") ($m, $k) . 0;
comp left { kind = \"ping\"; n = 0; show kind; run Either; }
comp right { kind = \"pong\"; show kind; run Pong; }";

/// Two keep sets. The last output is never made.
const SETS: &[u8] = b"abc 1;
def Keep = ? (tt) ($a, $b, $c) . [a := $a] [b := $b] [c := $c] Keep;
comp sender { s = {3, 1, 2, 3}; u = {}; show s;
  run (s, 1, u) @ (tt) . (size(s), free(s), free(u)) @ (tt)
    . (union(s, set(0, \"x\", true)), without(s, {2, 4}), set(\"b\", \"\", false, -1)) @ (tt)
    . (1) @ (tt) . 0; }
comp keeper { show; run Keep; }
comp other { show; run Keep; }";

/// Of b's four inputs one asks for another kind, and one for a smaller value.
const HEARERS: &[u8] = b"abc 1;
comp a { kind = \"x\"; show kind; run (1) @ (tt) . (2) @ (tt) . (3) @ (tt) . 0; }
comp b { show; run ? (kind = \"x\") ($v) . [p := $v] 0 | ? (kind = \"y\") ($v) . [q := $v] 0
  | ? (tt) ($v) . [r := $v] 0 | ? ($v < 3) ($v) . [s := $v] 0; }
comp c { show; run ? (tt) ($v) . [l := $v] 0 + ? (tt) ($v) . [m := $v] 0; }";

/// A program, the pick, the choices of the first three steps, and these with what they end in.
const RUNS: [(&[u8], u64, [&str; 3], &str); 3] = [
    (
        CALLS,
        0,
        ["0.0,1.0", "1.0,0.0", "0.0,1.0"],
        "0:0 (\"ping\", 0){kind=\"ping\";} -> 1:0; 1:0 (\"pong\", 0){kind=\"pong\";} -> 0:0; 0:0 (\"ping\", 1){kind=\"ping\";} -> 1:0; {n=2;kind=\"ping\";}{n=1;kind=\"pong\";} speaks",
    ),
    (
        SETS,
        0,
        ["0.0,1.0,2.0", "0.0,1.0,2.0", "0.0,1.0,2.0"],
        "0:0 ({1, 2, 3}, 1, {}){s={1, 2, 3};} -> 1:0 2:0; 0:0 (3, 0, 0){s={1, 2, 3};} -> 1:0 2:0; 0:0 ({0, 1, 2, 3, \"x\", true}, {1, 3}, {-1, \"\", \"b\", false}){s={1, 2, 3};} -> 1:0 2:0; {s={1, 2, 3};u={};}{a={0, 1, 2, 3, \"x\", true};b={1, 3};c={-1, \"\", \"b\", false};}{a={0, 1, 2, 3, \"x\", true};b={1, 3};c={-1, \"\", \"b\", false};} speaks",
    ),
    (
        HEARERS,
        5,
        ["0.0,1.2,2.1", "0.0,1.0", "0.0,1.0"],
        "0:0 (1){kind=\"x\";} -> 1:2 2:1; 0:0 (2){kind=\"x\";} -> 1:0; 0:0 (3){kind=\"x\";} -> 1:0; {kind=\"x\";}{p=2;r=3;s=1;}{m=1;} silent",
    ),
];

fn start<'p>(alloc: Global, program: &'p Program) -> Result<System<'p>, NoMemory>
    requires { IsChecked program.now }
{
    match System::start(alloc, program) {
        Err(NoMemory) => System::start(alloc, program),
        answer => answer,
    }
}

/// The next step, by the pick, or by the choice where one is given.
fn step(
    system: &mut System<'_>,
    pick: u64,
    made: u32,
    choice: Option<&Choice>,
) -> Result<Option<StepRow>, NoMemory> {
    match choice {
        None => system.take_turn(pick, made),
        Some(choice) => system.step(choice),
    }
}

fn step_again(
    system: &mut System<'_>,
    pick: u64,
    made: u32,
    choice: Option<&Choice>,
) -> Result<Option<StepRow>, NoMemory> {
    match step(system, pick, made, choice) {
        Err(NoMemory) => step(system, pick, made, choice),
        answer => answer,
    }
}

fn choice_again(alloc: Global, words: &str) -> Result<Choice, NoMemory> {
    match choice_of(alloc, words) {
        Err(NoMemory) => choice_of(alloc, words),
        answer => answer,
    }
}

fn room(alloc: Global) -> Result<List<StepRow>, NoMemory> {
    match List::with_capacity(alloc, 3) {
        Err(NoMemory) => List::with_capacity(alloc, 3),
        answer => answer,
    }
}

/// The run with these steps, as a text.
fn shown_again(
    alloc: Global,
    names: &[ShortText],
    system: &System<'_>,
    steps: List<StepRow>,
) -> Result<List<u8>, NoMemory> {
    let finals = match system.envs() {
        Err(NoMemory) => system.envs()?,
        Ok(finals) => finals,
    };
    let silent = system.is_silent();
    let run = Run {
        steps,
        finals,
        silent,
    };
    match shown_run(alloc, names, &run) {
        Err(NoMemory) => shown_run(alloc, names, &run),
        answer => answer,
    }
}

/// The first three steps, by the pick, or by the choices where they are to tell.
fn steps_made(
    rt: &impl Abort,
    alloc: Global,
    system: &mut System<'_>,
    pick: u64,
    choices: &[&str; 3],
    by_choices: bool,
) -> Result<List<StepRow>, Fail> {
    let mut steps = room(alloc)?;
    for (made, words) in choices.iter().enumerate() {
        let choice = choice_again(alloc, words)?;
        let told = if by_choices { Some(&choice) } else { None };
        match step_again(system, pick, made as u32, told)? {
            Some(row) => steps.push(row)?,
            None => assert!(rt; false, "no step {choice:?}"),
        }
    }
    Ok(steps)
}

/// The program's first three steps, as a text.
fn run_made(
    rt: &impl Abort,
    alloc: Global,
    program: &Program,
    run: &(&[u8], u64, [&str; 3], &str),
    by_choices: bool,
) -> Result<List<u8>, Fail>
    requires { IsChecked program.now }
{
    let (_, pick, choices, _) = run;
    let mut system = start(alloc, program)?;
    let steps = steps_made(rt, alloc, &mut system, *pick, choices, by_choices)?;
    Ok(shown_again(alloc, program.names.as_slice(), &system, steps)?)
}

fn runs_so(
    rt: &impl Abort,
    alloc: Global,
    run: &(&[u8], u64, [&str; 3], &str),
    by_choices: bool,
) -> Result<(), Fail> {
    let (text, _, _, wanted) = run;
    let program = program_of(rt, alloc, text)?;
    let line = run_made(rt, alloc, &program, run, by_choices)?;
    let found = line.as_slice();
    assert!(rt; found == wanted.as_bytes(), "{found:?} for {wanted:?}");
    Ok(())
}

#[test]
fn by_turns(rt: HostRuntime) -> Result<(), Fail> {
    for run in &RUNS {
        runs_so(&rt, rt.alloc(), run, false)?;
    }
    Ok(())
}

#[test]
fn by_choices(rt: HostRuntime) -> Result<(), Fail> {
    for run in &RUNS {
        runs_so(&rt, rt.alloc(), run, true)?;
    }
    Ok(())
}
