//! Arrivals that draw nothing, as they are logged.
ghost use Rattle.std.specs.Prelude.{◌<◌, None};
ghost use Rattle.abc_packet.specs.declared.log.Deed.TheVariants.{Arrived, Stray};
ghost use Rattle.abc_history.specs.Histories.{Noted};

use abc_history::History;
use abc_packet::{Deed, MOST_CLOCK, Stamped};

/// Logs a packet for which there is a row. It takes no memory.
pub(crate) fn log_arrival<L>(history: &mut History<L>, link: u32, stamped: Stamped<L>)
    requires room { 0 < history.old.room }
    requires clock { history.old.clock < MOST_CLOCK }
    requires stamp { stamped.clock < MOST_CLOCK }
    ensures { Noted history.old (Arrived link stamped None) history.new }
{
    let clock = history.clock_after(&stamped);
    let drew = None;
    history.note(
        clock,
        Deed::Arrived {
            link,
            stamped,
            drew,
        },
    );
}

/// Logs a packet for which there is none. It takes no memory.
pub(crate) fn log_stray<L>(history: &mut History<L>, link: u32, stamped: Stamped<L>)
    requires room { 0 < history.old.room }
    requires clock { history.old.clock < MOST_CLOCK }
    requires stamp { stamped.clock < MOST_CLOCK }
    ensures { Noted history.old (Stray link stamped) history.new }
{
    let clock = history.clock_after(&stamped);
    history.note(clock, Deed::Stray { link, stamped });
}
