//! The end of a counter, to which all seats come back.
ghost use Rattle.std.specs.Prelude.{◌≡◌, ◌<◌, ◌≤◌, [], ◌∷◌, ◌++◌, true, length};
ghost use Rattle.std.specs.Prelude.{All, Any, IsPermutation};
ghost use Rattle.abc_number.specs.Draws.{first_numbers};
ghost use Rattle.abc_counter.specs.Steps.{joined};
ghost use Rattle.abc_counter.specs.declared.counter.CounterSeat.{CounterSeat};
ghost use Rattle.abc_counter.specs.Counters.{limit_of, seats_of, is_closed, drawn_by_all};
ghost use Rattle.abc_counter.specs.Counters.{IsSeatOf, HasTaken};

use crate::counter::{CounterSeat, SharedCounter};
use crate::rule::SeatJoin;
use crate::views::SeatView;
use abc_value::List;
use atomic_table::Seat;

impl SharedCounter {
    /// Ends the counter, and answers how many numbers were drawn. The seats are all those that
    /// `new` gave with this counter: as none can be copied, it is enough that they are as many.
    /// It takes no memory.
    pub fn close(self, seats: List<CounterSeat>) -> u32
        requires of { All (IsSeatOf self) seats }
        requires all { length seats ≡ seats_of self }
        ensures within { result ≤ limit_of self }
        ensures each_once { IsPermutation (first_numbers result) (drawn_by_all seats) }
        ensures full { Any (λ s. is_closed s ≡ true) seats → result ≡ limit_of self }
    {
        let whole = self.gather(seats);
        let SharedCounter { table, limit } = self;
        let closed = table.close_with(whole);
        let word = closed.word(0);
        closed.free();
        word.min(u64::from(limit)) as u32
    }

    // One seat that took all in.
    fn gather(&self, mut seats: List<CounterSeat>) -> Seat<u8, SeatView>
        requires of { All (IsSeatOf self.now) seats }
        requires some { 0 < length seats }
        ensures { HasTaken self.now result [] seats }
    {
        let mut whole = take_last(&mut seats);
        'taking: while let Some(seat) = seats.pop() {
            self.take_in(&mut whole, seat);
        }
        whole
    }

    // Joins a seat to another.
    fn take_in(&self, whole: &mut Seat<u8, SeatView>, seat: CounterSeat)
        requires table { whole.old.table_id ≡ self.now.table.shared.table_id }
        requires some { 0 < length whole.old.me.0.seats }
        requires seat { IsSeatOf self.now seat }
        ensures table { whole.new.table_id ≡ whole.old.table_id }
        ensures view { whole.new.me ≡ (joined whole.old.me.0 seat.seat.me.0, whole.old.me.1) }
    {
        let CounterSeat { seat, closed: _ } = seat;
        self.table.shared.join_seat::<SeatJoin>(whole, seat);
    }
}

// The last seat of a list that has one.
fn take_last(seats: &mut List<CounterSeat>) -> Seat<u8, SeatView>
    requires { 0 < length seats.old }
    ensures { (s : CounterSeat) × (seats.old ≡ seats.new ++ s ∷ []) × (result ≡ s.seat) }
{
    match seats.pop() {
        Some(CounterSeat { seat, closed: _ }) => seat,
        None => unreachable!(),
    }
}
