ghost use Rattle.std.specs.Prelude.{◌≡◌, ◌<◌, ◌≤◌, ◌+◌, ◌^◌, ℕ, length, replicate, IfOk, OnOk};
ghost use Rattle.abc_logs.specs.Choices.{AreChoices, AreNumbered};
ghost use Rattle.abc_merge.specs.Telling.{blank, changed_at, hears_it, turns_it, numbers_in};
ghost use Rattle.abc_merge.specs.Telling.{tell_rows, tell_log, tell_logs};
ghost use Rattle.abc_merge.specs.Telling.{IsWithin, AreWithin, AllWithin};
ghost use Rattle.abc_net.specs.Records.{agents_logs, entries_of, first_logs, logs_of};
ghost use Rattle.abc_network.specs.Numbering.{taken_number, taken_numbers};

use abc_net::{NoMemory, Record};
use abc_packet::{Choice, Deed, Entry, List, Log};
use std::alloc::Global;

/// The choices of a record's numbers, from number 1 on: who turned it, at which place, and who
/// heard it where, in order of agent.
///
/// Each agent has taken or turned the same numbers, 1, 2 and so on, in order, and each number was
/// turned by one agent.
pub fn choices<L>(alloc: Global, ran: &Record<L>) -> Result<List<Choice>, NoMemory>
    requires logs { ran.now.agents ≤ length ran.now.logs }
    requires numbered { (count : ℕ) × AreNumbered (agents_logs ran.now) count }
    ensures choices { IfOk result (λ choices. AreChoices (agents_logs ran.now) 1 choices) }
    ensures count { IfOk result (λ choices. AreNumbered (agents_logs ran.now) (length choices)) }
{
    let logs = &ran.logs.as_slice()[..ran.agents as usize];
    let mut rows = blank_rows(alloc, numbers_of(logs))?;
    tell_agents(&mut rows, logs)?;
    Ok(List::from_vec(rows))
}

/// How many numbers the first of these logs took or turned; 0 where there is none.
fn numbers_of<L>(logs: &[Log<L>]) -> usize
    ensures { result ≡ numbers_in (entries_of logs.now) }
{
    match logs.first() {
        Some(log) => count_taken(log.entries()),
        None => 0,
    }
}

/// How many numbers an agent took or turned.
#[tactic(auto, using(crate::proofs::Steps::more_numbers))]
fn count_taken<L>(entries: &[Entry<L>]) -> usize
    ensures { result ≡ length (taken_numbers entries.now) }
{
    let mut count = 0;
    for entry in entries {
        count += taken_by_deed(&entry.deed);
    }
    count
}

/// How many numbers a deed took or turned.
fn taken_by_deed<L>(deed: &Deed<L>) -> usize
    ensures count { result ≡ length (taken_number deed.now) }
    ensures few { result ≤ 1 }
{
    match deed {
        Deed::Took { .. } | Deed::Turned { .. } => 1,
        Deed::Asked | Deed::Arrived { .. } | Deed::Passed { .. } | Deed::Stray { .. } => 0,
    }
}

/// So many choices of which nothing is known yet.
#[tactic(auto, using(crate::proofs::Steps::more_blank))]
fn blank_rows(alloc: Global, count: usize) -> Result<Vec<Choice>, NoMemory>
    ensures { IfOk result (λ rows. rows.items ≡ replicate count blank) }
{
    let mut rows = Vec::with_capacity(alloc, count)?;
    for _ in 0..count {
        rows.push(Choice {
            sender: 0,
            place: None,
            heard: List::new(alloc),
        })?;
    }
    Ok(rows)
}

/// Tells the choices what the logs of all agents say.

fn tell_agents<L>(rows: &mut Vec<Choice>, logs: &[Log<L>]) -> Result<(), NoMemory>
    requires few { length logs.now < 2 ^ 32 }
    requires within { AllWithin (length rows.old.items) (entries_of logs.now) }
    ensures { OnOk result (rows.new.items ≡ tell_logs 0 (entries_of logs.now) rows.old.items) }
{
    for (agent, log) in logs.iter().enumerate() {
        tell_entries(rows, agent as u32, log.entries())?;
    }
    Ok(())
}

/// Tells them what one agent's entries say.
#[tactic(auto, using(crate::proofs::Steps::more_told, crate::proofs::Steps::within_at, crate::proofs::Known::count_log))]
fn tell_entries<L>(rows: &mut Vec<Choice>, agent: u32, entries: &[Entry<L>]) -> Result<(), NoMemory>
    requires within { AreWithin (length rows.old.items) entries.now }
    ensures { OnOk result (rows.new.items ≡ tell_log agent entries.now rows.old.items) }
{
    for entry in entries {
        tell(rows, agent, &entry.deed)?;
    }
    Ok(())
}

/// Tells them what one deed says.
fn tell<L>(rows: &mut Vec<Choice>, agent: u32, deed: &Deed<L>) -> Result<(), NoMemory>
    requires within { IsWithin (length rows.old.items) deed.now }
    ensures { OnOk result (rows.new.items ≡ tell_rows agent deed.now rows.old.items) }
{
    match deed {
        Deed::Took {
            number,
            place: Some(place),
        } => {
            hear_at(rows, *number, agent, *place)?;
        }
        Deed::Turned { number, place, .. } => {
            turn_at(rows, *number, agent, *place);
        }
        Deed::Took { place: None, .. }
        | Deed::Asked
        | Deed::Arrived { .. }
        | Deed::Passed { .. }
        | Deed::Stray { .. } => {}
    }
    Ok(())
}

/// An agent heard a number at this place.
fn hear_at(rows: &mut Vec<Choice>, number: u32, agent: u32, place: u32) -> Result<(), NoMemory>
    requires above { 0 < number }
    requires within { number ≤ length rows.old.items }
    ensures { OnOk result
        (rows.new.items ≡ changed_at (hears_it agent place) number 1 rows.old.items) }
{
    let row = number as usize - 1;
    rows[row].heard.push((agent, place))
}

/// An agent turned a number, at this place or at none.
fn turn_at(rows: &mut Vec<Choice>, number: u32, agent: u32, place: Option<u32>)
    requires above { 0 < number }
    requires within { number ≤ length rows.old.items }
    ensures { rows.new.items ≡ changed_at (turns_it agent place) number 1 rows.old.items }
{
    let row = &mut rows[number as usize - 1];
    row.sender = agent;
    row.place = place;
}
