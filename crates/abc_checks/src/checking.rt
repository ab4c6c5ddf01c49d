ghost use Rattle.std.specs.Prelude.{ℕ, ◌≡◌, ◌^◌, ◌<◌, length, IfOk, MatchResult, MatchOption, if◌then◌else◌};
ghost use Rattle.abc_term.specs.Standing.{definitions_of};
ghost use Rattle.abc_checks.specs.Sites.{IsFirstSite};
ghost use Rattle.abc_checks.specs.Facts.{DoubleName, UnknownName, OpenVariable, Unguarded, ParallelCycle, TooWide, TooManyMoves, NoComponent, TooManyComponents, HasFact, IsChecked, IsFirstFact, IsRefusal};

use crate::calls::Calls;
use crate::causes::{CheckRefusal, Site};
use crate::cycles::first_bad_cycle;
use crate::limits::MOST_COMPONENTS;
use crate::measures::{Measure, table};
use crate::places::Places;
use crate::sites::first_site;
use crate::{counts, facts};
use abc_cause::CheckCause;
use abc_term::Program;
use abc_value::NoMemory;
use std::alloc::Global;

/// The first site at which a definition reaches itself by unguarded calls.
fn unguarded(alloc: Global, places: &Places<'_>) -> Result<Option<Site>, NoMemory>
    requires { length places.now.program.now.definitions < 2 ^ 32 }
    ensures { IfOk result (IsFirstSite (Unguarded places.now.program.now)) }
{
    first_bad_cycle(alloc, Calls::Unguarded, places)
}

/// The first site at which a definition that holds `|` reaches itself.
fn parallel_cycle(alloc: Global, places: &Places<'_>) -> Result<Option<Site>, NoMemory>
    requires { length places.now.program.now.definitions < 2 ^ 32 }
    ensures { IfOk result (IsFirstSite (ParallelCycle places.now.program.now)) }
{
    first_bad_cycle(alloc, Calls::All, places)
}

/// The first component that is too wide.
fn too_wide(alloc: Global, places: &Places<'_>) -> Result<Option<Site>, NoMemory>
    requires definitions { length places.now.program.now.definitions < 2 ^ 32 }
    requires components { length places.now.program.now.components < 2 ^ 32 }
    ensures { IfOk result (IsFirstSite (TooWide places.now.program.now)) }
{
    let widths = table(alloc, Measure::Width, places)?;
    let fact = counts::TooWide {
        places: &*places,
        widths: &widths,
    };
    Ok(first_site(&fact, places.program))
}

/// The first site with a process of too many moves.
fn too_many_moves(alloc: Global, places: &Places<'_>) -> Result<Option<Site>, NoMemory>
    requires definitions { length places.now.program.now.definitions < 2 ^ 32 }
    requires components { length places.now.program.now.components < 2 ^ 32 }
    ensures { IfOk result (IsFirstSite (TooManyMoves places.now.program.now)) }
{
    let breadths = table(alloc, Measure::Breadth, places)?;
    let fact = counts::TooManyMoves {
        places: &*places,
        breadths: &breadths,
    };
    Ok(first_site(&fact, places.program))
}

/// The whole program, where the test holds of it.
fn whole_if(holds: bool) -> Option<Site>
    ensures { result ≡ (if holds then Some Site.Whole else None) }
{
    if holds { Some(Site::Whole) } else { None }
}

/// The first site at which the fact of a cause holds.
fn first_of(alloc: Global, cause: CheckCause, places: &Places<'_>) -> Result<Option<Site>, NoMemory>
    requires definitions { length places.now.program.now.definitions < 2 ^ 32 }
    requires components { length places.now.program.now.components < 2 ^ 32 }
    ensures { IfOk result (IsFirstSite (HasFact cause places.now.program.now)) }
{
    let program = places.program;
    let count = program.components.len();
    match cause {
        CheckCause::DoubleName => Ok(first_site(&facts::DoubleName(&*places), program)),
        CheckCause::UnknownName => Ok(first_site(&facts::UnknownName(&*places), program)),
        CheckCause::OpenVariable => Ok(first_site(&facts::OpenVariable(program), program)),
        CheckCause::Unguarded => unguarded(alloc, places),
        CheckCause::ParallelCycle => parallel_cycle(alloc, places),
        CheckCause::TooWide => too_wide(alloc, places),
        CheckCause::TooManyMoves => too_many_moves(alloc, places),
        CheckCause::NoComponent => Ok(whole_if(count == 0)),
        CheckCause::TooManyComponents => Ok(whole_if(MOST_COMPONENTS < count)),
    }
}

/// The causes in the order in which they are taken.
const CAUSES: [CheckCause; 9] = [
    CheckCause::DoubleName,
    CheckCause::UnknownName,
    CheckCause::OpenVariable,
    CheckCause::Unguarded,
    CheckCause::ParallelCycle,
    CheckCause::TooWide,
    CheckCause::TooManyMoves,
    CheckCause::NoComponent,
    CheckCause::TooManyComponents,
];

/// The first fact that holds of the program: the first cause in order, and its first site.
fn first_fact(alloc: Global, program: &Program) -> Result<Option<(CheckCause, Site)>, NoMemory>
    requires definitions { length program.now.definitions < 2 ^ 32 }
    requires components { length program.now.components < 2 ^ 32 }
    ensures { IfOk result (λ o. MatchOption o (IsChecked program.now) (λ f. IsFirstFact program.now f.0 f.1)) }
{
    let places = Places::of(alloc, program)?;
    for cause in &CAUSES {
        if let Some(site) = first_of(alloc, *cause, &places)? {
            return Ok(Some((*cause, site)));
        }
    }
    Ok(None)
}

/// Whether the program is fit to run: Ok exactly where no fact of the checks holds of it. Else Bad, with
/// the first cause in the order of `CheckCause` and the first site to which it applies: the first
/// definition by number, else the first component. NoMemory may come of any program.
pub fn check(alloc: Global, program: &Program) -> Result<(), CheckRefusal>
    requires definitions { length program.now.definitions < 2 ^ 32 }
    requires components { length program.now.components < 2 ^ 32 }
    ensures { MatchResult result (λ _. IsChecked program.now) (IsRefusal program.now) }
{
    match first_fact(alloc, program) {
        Ok(None) => Ok(()),
        Ok(Some((cause, site))) => Err(CheckRefusal::Bad(cause, site)),
        Err(NoMemory) => Err(CheckRefusal::NoMemory),
    }
}
