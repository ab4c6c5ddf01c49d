ghost use Rattle.std.specs.Prelude.{◌≡◌, ◌<◌, ◌+◌, ◌^◌, ◌++◌, length, All, IfOk, OnOk, map};
ghost use Rattle.abc_logs.specs.Merges.{IsMerge};
ghost use Rattle.abc_merge.specs.Keys.{clocks_of, entry_keys, keys_of, place_of_key};
ghost use Rattle.abc_net.specs.Records.{logs_of};

use abc_net::{NoMemory, Record};
use abc_packet::{Entry, List, Log};
use std::alloc::Global;

/// All entries of a record, each as its actor and its place in that actor's log, ordered by clock,
/// then by actor, then by place.
pub fn merge<L>(alloc: Global, ran: &Record<L>) -> Result<List<(u32, u32)>, NoMemory>
    requires many { length ran.now.logs < 2 ^ 32 }
    requires long { All (λ log. length log.entries < 2 ^ 32) ran.now.logs }
    ensures { IfOk result (λ places. IsMerge (logs_of ran.now) places) }
{
    let mut keys = all_keys(alloc, ran.logs.as_slice())?;
    keys.sort_unstable();
    let places = places_of(alloc, &keys)?;
    Ok(List::from_vec(places))
}

/// The actor and the place of each key, in order.
fn places_of(alloc: Global, keys: &[(u64, u32, u32)]) -> Result<Vec<(u32, u32)>, NoMemory>
    ensures { IfOk result (λ places. places.items ≡ map place_of_key keys.now) }
{
    let places = keys.iter().map(|key| (key.1, key.2)).collect(alloc)?;
    Ok(places)
}

/// The keys of all entries: clock, actor, place.
fn all_keys<L>(alloc: Global, logs: &[Log<L>]) -> Result<Vec<(u64, u32, u32)>, NoMemory>
    requires many { length logs.now < 2 ^ 32 }
    requires long { All (λ log. length log.entries < 2 ^ 32) logs.now }
    ensures { IfOk result (λ keys. keys.items ≡ keys_of 0 (clocks_of logs.now)) }
{
    let mut keys = Vec::new(alloc);
    for (actor, log) in logs.iter().enumerate() {
        push_log(&mut keys, actor as u32, log.entries())?;
    }
    Ok(keys)
}

/// Appends the keys of one actor's entries.
fn push_log<L>(
    keys: &mut Vec<(u64, u32, u32)>,
    actor: u32,
    entries: &[Entry<L>],
) -> Result<(), NoMemory>
    requires long { length entries.now < 2 ^ 32 }
    ensures { OnOk result
        (keys.new.items ≡ keys.old.items ++ entry_keys actor 0 (map (λ e. e.clock) entries.now)) }
{
    for (place, entry) in entries.iter().enumerate() {
        keys.push((entry.clock, actor, place as u32))?;
    }
    Ok(())
}
