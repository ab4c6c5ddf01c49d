ghost use Rattle.std.specs.Prelude.{◌≡◌, ◌<◌, ◌≤◌, ◌+◌, length};
ghost use Rattle.abc_logs.specs.MicroSteps.{taken_by};
ghost use Rattle.abc_logs.specs.Merges.{log_of};
ghost use Rattle.abc_history.specs.Histories.{arrivals_in};
ghost use Rattle.abc_net.specs.Records.{logs_of};

use abc_net::Record;
use abc_packet::{Deed, Entry};

/// How many packets a sequencing node handled: the arrivals in its log, strays too.
#[tactic(auto, using(crate::proofs::Counting::log_at))]
pub fn handled<L>(ran: &Record<L>, node: u32) -> u64
    requires logs { length ran.now.logs ≡ ran.now.agents + ran.now.nodes }
    requires node { node < ran.now.nodes }
    ensures { result ≡ arrivals_in (log_of (logs_of ran.now) (ran.now.agents + node)) }
{
    let actor = ran.agents as usize + node as usize;
    let log = &ran.logs.as_slice()[actor];
    count_arrivals(log.entries())
}

/// How many packets a deed took from a link.
fn arrivals_of<L>(deed: &Deed<L>) -> u64
    ensures count { result ≡ length (taken_by deed.now) }
    ensures few { result ≤ 1 }
{
    match deed {
        Deed::Arrived { .. } | Deed::Stray { .. } => 1,
        Deed::Asked | Deed::Took { .. } | Deed::Turned { .. } | Deed::Passed { .. } => 0,
    }
}

/// How many packets these entries took.
#[tactic(auto, using(crate::proofs::Counting::one_more))]
fn count_arrivals<L>(entries: &[Entry<L>]) -> u64
    ensures { result ≡ arrivals_in entries.now }
{
    let mut count = 0;
    for entry in entries {
        count += arrivals_of(&entry.deed);
    }
    count
}
