//! What a thread draws with.
ghost use Rattle.std.specs.Prelude.{◌≡◌, ◌<◌};
ghost use Rattle.abc_number.specs.Draws.{Granted};
ghost use Rattle.abc_counter.specs.Steps.{IsOpen};
ghost use Rattle.abc_counter.specs.Rule.{after_draw};
ghost use Rattle.abc_counter.specs.Counters.{limit_of, drawn_by, is_closed, IsSeatOf};

use crate::counter::{CounterSeat, SharedCounter};
use crate::rule::DrawStep;
use crate::views::SeatView;
use abc_number::{Grant, Numbers};
use atomic_table::Seat;

/// A seat beside its counter, both lent. The counter may be lent to many threads at once.
#[derive(Drop)]
pub struct Drawer<'a> {
    pub counter: &'a SharedCounter,
    pub seat: &'a mut CounterSeat,
    ghost table: { seat.now.seat.table_id ≡ counter.now.table.shared.table_id },
    ghost limit: { seat.now.seat.me.0.limit ≡ counter.now.limit },
}

impl<'a> Drawer<'a> {
    /// Borrows a counter, and a seat that `SharedCounter::new` gave with it. It takes no memory.
    pub fn new(counter: &'a SharedCounter, seat: &'a mut CounterSeat) -> Drawer<'a>
        requires of { IsSeatOf counter.now seat.now }
        ensures counter { result.counter.now ≡ counter.now }
        ensures seat { result.seat.now ≡ seat.entry.now }
        ensures lent { result.seat.ghost_name ≡ seat.entry.ghost_name }
    {
        Drawer { counter, seat }
    }
}

impl<'a> Numbers for Drawer<'a> {
    ghost use Rattle.std.specs.Prelude.{◌≡◌};
    ghost use Rattle.std.proofs.Common.{◌∙◌, refl};
    ghost use Rattle.abc_counter.specs.Counters.{limit_of, drawn_by, is_closed};

    ghost limit = { λ d. limit_of d.counter.now };

    ghost drawn = { λ d. drawn_by d.seat.now };

    ghost closed = { λ d. is_closed d.seat.now };

    ghost stays = { λ a b.
        (b.counter.now ≡ a.counter.now) × (b.seat.ghost_name ≡ a.seat.ghost_name) };

    ghost stays_still = { λ a. (refl, refl) };

    ghost stays_on = { λ a b c first second. (second.0 ∙ first.0, second.1 ∙ first.1) };

    /// Draws the number after the last one that any seat drew, or answers Closed where all up to
    /// the limit are drawn, and from then on.
    fn draw(&mut self) -> Grant {
        let counter = self.counter;
        draw_at(counter, self.seat)
    }
}

// The one step: adds 1 to the word, and answers what it was.
fn add_one(counter: &SharedCounter, seat: &mut Seat<u8, SeatView>) -> u64
    requires table { seat.old.table_id ≡ counter.now.table.shared.table_id }
    requires is_open { IsOpen seat.old.me.0 }
    ensures table { seat.new.table_id ≡ seat.old.table_id }
    ensures view { seat.new.me ≡ (after_draw seat.old.me.0 result, seat.old.me.1) }
{
    counter.table.shared.fetch_add::<DrawStep>(seat, 0, 1)
}

// A draw of a seat of this counter.
fn draw_at(counter: &SharedCounter, own: &mut CounterSeat) -> Grant
    requires { IsSeatOf counter.now own.old }
    ensures same { IsSeatOf counter.now own.new }
    ensures granted { Granted (limit_of counter.now) (drawn_by own.old) (is_closed own.old) result
        (drawn_by own.new) (is_closed own.new) }
{
    if own.closed {
        return Grant::Closed;
    }
    let found = add_one(counter, &mut own.seat);
    if found >= u64::from(counter.limit) {
        own.closed = true;
        return Grant::Closed;
    }
    Grant::Number(found as u32 + 1)
}

fn crosses_threads<T: Send>() {}

fn is_shared_by_threads<T: Sync>() {}

/// A seat may go to another thread, and threads may share a counter.
fn threads_draw() {
    crosses_threads::<CounterSeat>();
    is_shared_by_threads::<SharedCounter>();
}
