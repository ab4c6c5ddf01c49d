//! Deep processes: the checks answer within the stack.

use abc_checks::{CheckCause, CheckRefusal, Site, check};
use abc_drafts::{Draft, Mistake};
use abc_pred::Name;
use abc_term::Program;
use std::alloc::Global;
use std::process::Abort;
use std::test::Fail;

const K: Name = Name(0);

const X: Name = Name(1);

/// So many guards before the newest process.
fn put_guards(draft: &mut Draft, count: u32) -> Result<(), Mistake> {
    for _ in 0..count {
        draft.guard()?;
    }
    Ok(())
}

/// So many outputs before the newest process.
fn put_outputs(draft: &mut Draft, count: u32) -> Result<(), Mistake> {
    for _ in 0..count {
        draft.output(&[])?;
    }
    Ok(())
}

/// So many `+ 0` behind the newest process.
fn put_choices(draft: &mut Draft, count: u32) -> Result<(), Mistake> {
    for _ in 0..count {
        draft.nil()?;
        draft.choice()?;
    }
    Ok(())
}

/// So many `| 0` behind the newest process.
fn put_pars(draft: &mut Draft, count: u32) -> Result<(), Mistake> {
    for _ in 0..count {
        draft.nil()?;
        draft.par()?;
    }
    Ok(())
}

/// What the checks answer: None where the program has no fault.
fn fault_of(alloc: Global, program: &Program) -> Result<Option<(CheckCause, Site)>, Mistake> {
    if program.components.len() > 10 || program.definitions.len() > 10 {
        return Err(Mistake::TooLong);
    }
    match check(alloc, program) {
        Ok(()) => Ok(None),
        Err(CheckRefusal::Bad(cause, site)) => Ok(Some((cause, site))),
        Err(CheckRefusal::NoMemory) => Err(Mistake::NoMemory),
    }
}

/// Wants this cause at the first component, or no fault. The program lists no names; one of a text lists
/// all.
fn wants(
    rt: &impl Abort,
    alloc: Global,
    draft: Draft,
    cause: Option<CheckCause>,
) -> Result<(), Fail> {
    let mut draft = draft;
    draft.component(Name(2))?;
    let program = draft.program(0)?;
    let fault = fault_of(alloc, &program)?;
    let wanted = match cause {
        Some(cause) => Some((cause, Site::Component(0))),
        None => None,
    };
    assert_eq!(rt; fault, wanted);
    Ok(())
}

/// `0 + .. + 0` with so many `+`, behind so many guards.
fn sum(alloc: Global, pluses: u32, guards: u32) -> Result<Draft, Mistake> {
    let mut draft = Draft::new(alloc);
    draft.nil()?;
    put_choices(&mut draft, pluses)?;
    put_guards(&mut draft, guards)?;
    Ok(draft)
}

/// The breadth is one more than twice the number of `+`, and the number of guards.
#[test]
fn sums_behind_guards(rt: HostRuntime) -> Result<(), Fail> {
    let alloc = rt.alloc();
    let many = Some(CheckCause::TooManyMoves);
    wants(&rt, alloc, sum(alloc, 2000, 100)?, many)?;
    wants(&rt, alloc, sum(alloc, 973, 101)?, None)?;
    wants(&rt, alloc, sum(alloc, 974, 100)?, many)?;
    wants(&rt, alloc, sum(alloc, 0, 2047)?, None)?;
    wants(&rt, alloc, sum(alloc, 0, 2048)?, many)
}

/// The draft with 2,000 outputs and 100 guards before its newest process.
fn deep(draft: Draft) -> Result<Draft, Mistake> {
    let mut draft = draft;
    put_outputs(&mut draft, 2000)?;
    put_guards(&mut draft, 100)?;
    Ok(draft)
}

/// A draft in which 0 waits.
fn with_nil(alloc: Global) -> Result<Draft, Mistake> {
    let mut draft = Draft::new(alloc);
    draft.nil()?;
    Ok(draft)
}

/// A draft in which a call waits.
fn with_call(alloc: Global) -> Result<Draft, Mistake> {
    let mut draft = Draft::new(alloc);
    draft.call(K)?;
    Ok(draft)
}

#[test]
fn deep_names_and_variables(rt: HostRuntime) -> Result<(), Fail> {
    let alloc = rt.alloc();
    wants(&rt, alloc, deep(with_nil(alloc)?)?, None)?;
    let mut twice = with_nil(alloc)?;
    twice.input(&[X, X])?;
    wants(&rt, alloc, deep(twice)?, Some(CheckCause::DoubleName))?;
    let unknown = Some(CheckCause::UnknownName);
    wants(&rt, alloc, deep(with_call(alloc)?)?, unknown)?;
    let mut open = with_nil(alloc)?;
    open.output(&[X])?;
    wants(&rt, alloc, deep(open)?, Some(CheckCause::OpenVariable))
}

/// 64 processes side by side, as a definition, and a call of it.
fn wide_call(alloc: Global) -> Result<Draft, Mistake> {
    let mut draft = with_nil(alloc)?;
    put_pars(&mut draft, 63)?;
    draft.define(K)?;
    draft.call(K)?;
    Ok(draft)
}

/// A definition of the greatest breadth, and a call of it.
fn broad_call(alloc: Global) -> Result<Draft, Mistake> {
    let mut draft = sum(alloc, 1023, 1)?;
    draft.define(K)?;
    draft.call(K)?;
    Ok(draft)
}

#[test]
fn deep_calls(rt: HostRuntime) -> Result<(), Fail> {
    let alloc = rt.alloc();
    wants(&rt, alloc, deep(wide_call(alloc)?)?, None)?;
    let mut wider = wide_call(alloc)?;
    put_pars(&mut wider, 1)?;
    wants(&rt, alloc, deep(wider)?, Some(CheckCause::TooWide))?;
    let broader = deep(broad_call(alloc)?)?;
    wants(&rt, alloc, broader, Some(CheckCause::TooManyMoves))
}
