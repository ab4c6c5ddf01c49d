//! The histories of actors, entry by entry.
ghost use Rattle.std.specs.Prelude.{◌≡◌};
ghost use Rattle.abc_network.specs.Networks.{taken_clock};

use crate::deeds::deed_of;
use abc_history::History;
use abc_packet::{Deed, List, Log, MOST_CLOCK, NoMemory};
use std::alloc::Global;

/// The clock of the packet that a deed took; 0 where it took none.
fn clock_taken(deed: &Deed<u32>) -> u64
    ensures { result ≡ taken_clock deed.now }
{
    match deed {
        Deed::Arrived { stamped, .. } | Deed::Stray { stamped, .. } => stamped.clock(),
        Deed::Asked | Deed::Took { .. } | Deed::Turned { .. } | Deed::Passed { .. } => 0,
    }
}

/// Notes a deed at a clock; None where that is not the clock that comes, or where there is no memory.
fn note(history: &mut History<u32>, clock: u64, deed: Deed<u32>) -> Option<()> {
    let before = history.clock().max(clock_taken(&deed));
    if before >= MOST_CLOCK || clock != before + 1 {
        return None;
    }
    history.make_room().ok()?;
    history.note(clock, deed);
    Some(())
}

/// Notes what a line says in the history of its actor; None where it says nothing that can be.
pub(crate) fn note_line(alloc: Global, histories: &mut [History<u32>], line: &str) -> Option<()> {
    let words: Vec<&str> = line.split_whitespace().collect(alloc).ok()?;
    let (actor, clock, deed) = match words.as_slice() {
        [actor, clock, deed @ ..] => (*actor, *clock, deed_of(alloc, deed)?),
        _ => return None,
    };
    let clock = clock.parse::<u64>().ok()?;
    let history = histories.get_mut(actor.parse::<usize>().ok()?)?;
    note(history, clock, deed)
}

/// The logs of these histories.
pub(crate) fn logs_of(
    alloc: Global,
    histories: Vec<History<u32>>,
) -> Result<List<Log<u32>>, NoMemory> {
    let mut logs = List::new(alloc);
    for history in histories {
        logs.push(history.into_log())?;
    }
    Ok(logs)
}
