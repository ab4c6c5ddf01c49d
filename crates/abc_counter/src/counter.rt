//! The counter and its seats.
ghost use Rattle.std.specs.Prelude.{◌≡◌, ◌-◌, ◌<◌, ◌≤◌, [], nat_lt, length, vec_len};
ghost use Rattle.std.specs.Prelude.{All, IfOk};
ghost use Rattle.abc_number.specs.declared.limits.TheConstants.{MOST_LIMIT};

use crate::rule::{CounterRule, SeatSplit};
use crate::views::{CounterTerms, SeatView};
use abc_number::MOST_LIMIT;
use abc_value::{List, NoMemory};
use atomic_table::{Seat, Table};
use std::alloc::Global;

/// A seat at a counter: what one thread at a time draws with. No code copies it.
#[derive(Drop)]
pub struct CounterSeat {
    pub(crate) seat: Seat<u8, SeatView>,
    pub(crate) closed: bool,
    ghost bare: { seat.me.1 ≡ [] },
    ghost one_seat: { length seat.me.0.seats ≡ 1 },
    ghost shut: { closed ≡ nat_lt 0 seat.me.0.closings },
}

/// A counter that threads share. Each draws with a seat of its own, by one atomic addition to one
/// word.
#[derive(Drop)]
pub struct SharedCounter {
    pub(crate) table: Table<u8, SeatView, CounterTerms, CounterRule, Global>,
    pub(crate) limit: u32,
    ghost one_word: { table.shared.table_id.words ≡ 1 },
    ghost no_slots: { table.shared.table_id.slots ≡ 0 },
    ghost terms: { table.shared.key.limit ≡ limit },
    ghost seated: { 0 < table.shared.key.seats },
    ghost some: { 0 < limit },
    ghost bounded: { limit ≤ MOST_LIMIT },
}

impl SharedCounter {
    ghost use Rattle.abc_counter.specs.Counters.{limit_of, seats_of, IsFreshSeatOf, IsUndealt};

    /// A counter that has drawn nothing, and its seats.
    #[tactic(auto, using(crate::proofs::Tables::opens))]
    pub fn new(
        alloc: Global,
        limit: u32,
        seats: u32,
    ) -> Result<(SharedCounter, List<CounterSeat>), NoMemory>
        requires some { 0 < limit }
        requires bounded { limit ≤ MOST_LIMIT }
        requires seated { 0 < seats }
        ensures limit { IfOk result (λ r. limit_of r.0 ≡ limit) }
        ensures seats { IfOk result (λ r. seats_of r.0 ≡ seats) }
        ensures dealt { IfOk result (λ r. length r.1 ≡ seats) }
        ensures fresh { IfOk result (λ r. All (IsFreshSeatOf r.0) r.1) }
    {
        let (table, first) = Table::of_words(alloc, &[0], &CounterTerms { limit, seats })?;
        let counter = SharedCounter { table, limit };
        let dealt = counter.deal(alloc, first, seats)?;
        Ok((counter, List::from_vec(dealt)))
    }

    // Splits the first seat into seats of one seat number each.
    fn deal(
        &self,
        alloc: Global,
        mut first: Seat<u8, SeatView>,
        seats: u32,
    ) -> Result<Vec<CounterSeat>, NoMemory>
        requires first { IsUndealt self.now first seats }
        requires some { 0 < seats }
        ensures dealt { IfOk result (λ v. vec_len v ≡ seats) }
        ensures fresh { IfOk result (λ v. All (IsFreshSeatOf self.now) v.items) }
    {
        let mut dealt = Vec::with_capacity(alloc, seats as usize)?;
        'dealing: for _ in 1..seats {
            dealt.push_reserved(self.split(&mut first));
        }
        dealt.push_reserved(CounterSeat {
            seat: first,
            closed: false,
        });
        Ok(dealt)
    }

    // A seat of one seat number, split off the first.
    fn split(&self, first: &mut Seat<u8, SeatView>) -> CounterSeat
        requires first { IsUndealt self.now first.old (length first.old.me.0.seats) }
        requires more { 1 < length first.old.me.0.seats }
        ensures first { IsUndealt self.now first.new (length first.old.me.0.seats - 1) }
        ensures fresh { IsFreshSeatOf self.now result }
    {
        let seat = self.table.shared.split_seat::<SeatSplit>(first);
        CounterSeat {
            seat,
            closed: false,
        }
    }
}
