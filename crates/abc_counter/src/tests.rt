ghost use Rattle.std.specs.Prelude.{◌≡◌, ◌≤◌, length, All};
ghost use Rattle.abc_number.specs.Draws.{Granted};
ghost use Rattle.abc_counter.specs.Counters.{limit_of, drawn_by, is_closed, IsSeatOf};

use super::*;
use std::alloc::Global;
use std::sync::atomic::{AtomicU64, Ordering};
use std::test::Fail;
use std::thread;
use std::thread::Threads;

/// A draw from whoever gives numbers.
fn draws_once<N: Numbers>(numbers: &mut N) -> Grant
    ensures stays { N.stays numbers.old numbers.new }
    ensures granted { Granted (N.limit numbers.old) (N.drawn numbers.old) (N.closed numbers.old)
        result (N.drawn numbers.new) (N.closed numbers.new) }
{
    numbers.draw()
}

/// A draw with a seat, as a worker makes it that is lent the counter and owns the seat.
fn draw_with(counter: &SharedCounter, seat: &mut CounterSeat) -> Grant
    requires { IsSeatOf counter.now seat.old }
    ensures same { IsSeatOf counter.now seat.new }
    ensures granted { Granted (limit_of counter.now) (drawn_by seat.old) (is_closed seat.old) result
        (drawn_by seat.new) (is_closed seat.new) }
{
    let mut drawer = Drawer::new(counter, seat);
    draws_once(&mut drawer)
}

/// The draws of two seats in turn, the first one more.
fn drawn_in_turn(counter: &SharedCounter, seats: &mut [CounterSeat]) -> [Grant; 5]
    requires two { length seats.old ≡ 2 }
    requires of { All (IsSeatOf counter.now) seats.old }
    ensures { All (IsSeatOf counter.now) seats.new }
{
    let one = draw_with(counter, &mut seats[0]);
    let two = draw_with(counter, &mut seats[1]);
    let three = draw_with(counter, &mut seats[0]);
    let four = draw_with(counter, &mut seats[1]);
    [one, two, three, four, draw_with(counter, &mut seats[0])]
}

#[test]
fn two_seats_share_two_numbers(rt: HostRuntime) -> Result<(), Fail> {
    let (counter, seats) = SharedCounter::new(rt.alloc(), 2, 2)?;
    let mut seats = seats.into_vec();
    let grants = drawn_in_turn(&counter, &mut seats);
    let closed = Grant::Closed;
    assert_eq!(rt;
        grants,
        [Grant::Number(1), Grant::Number(2), closed, closed, closed]
    );
    assert_eq!(rt; counter.close(List::from_vec(seats)), 2);
    Ok(())
}

#[test]
fn what_is_not_drawn_is_not_counted(rt: HostRuntime) -> Result<(), Fail> {
    let (counter, seats) = SharedCounter::new(rt.alloc(), MOST_LIMIT, 2)?;
    let mut seats = seats.into_vec();
    let grants = drawn_in_turn(&counter, &mut seats);
    let numbers = [1, 2, 3, 4, 5].map(Grant::Number);
    assert_eq!(rt; grants, numbers);
    assert_eq!(rt; counter.close(List::from_vec(seats)), 5);
    Ok(())
}

/// How many numbers the threads draw, and how many threads.
const NUMBERS: u32 = 100_000;

const DRAWING: u32 = 4;

/// Draws until the counter is closed, and counts how often each number was drawn.
fn draw_all(shared: &SharedCounter, drawn: &[AtomicU64], seat: &mut CounterSeat)
    requires of { IsSeatOf shared.now seat.old }
    requires room { limit_of shared.now ≤ length drawn.now }
    ensures { IsSeatOf shared.now seat.new }
{
    'drawing: for _ in 0..=drawn.len() {
        match draw_with(shared, seat) {
            Grant::Number(number) => {
                drawn[number as usize - 1].fetch_add(1, Ordering::SeqCst);
            }
            Grant::Closed => return,
        }
    }
}

/// Each seat draws on a thread of its own, all from one counter.
fn all_draw<R: Threads + Sync>(
    rt: &R,
    counter: &SharedCounter,
    drawn: &[AtomicU64],
    seats: &mut [CounterSeat],
)
    requires of { All (IsSeatOf counter.now) seats.old }
    requires room { limit_of counter.now ≤ length drawn.now }
    ensures same { All (IsSeatOf counter.now) seats.new }
    ensures length { length seats.new ≡ length seats.old }
{
    thread::for_each_mut(
        rt,
        seats,
        DRAWING as usize,
        &|_, seat| draw_all(counter, drawn, seat),
    );
}

/// A place for each number.
fn places(alloc: Global) -> Result<Vec<AtomicU64>, Fail> {
    let mut drawn = Vec::new(alloc);
    for _ in 0..NUMBERS {
        drawn.push(AtomicU64::new(0))?;
    }
    Ok(drawn)
}

#[test]
fn threads_draw_each_number_once(rt: HostRuntime) -> Result<(), Fail> {
    let drawn = places(rt.alloc())?;
    assert!(rt; drawn.len() == NUMBERS as usize);
    let (counter, seats) = SharedCounter::new(rt.alloc(), NUMBERS, DRAWING)?;
    let mut seats = seats.into_vec();
    all_draw(&rt, &counter, &drawn, &mut seats);
    assert!(rt; drawn.iter().all(|times| times.load(Ordering::SeqCst) == 1));
    assert_eq!(rt; counter.close(List::from_vec(seats)), NUMBERS);
    Ok(())
}
