ghost use Rattle.std.specs.Prelude.{◌≡◌, ◌+◌, ◌^◌, ◌<◌, ◌≤◌, length};
ghost use Rattle.abc_link.specs.Links.{queue_of, SameIn};

use super::*;
use abc_value::List;
use std::test::Fail;

/// Sends so many numbers, from `first` on.
fn send_numbers(out: &mut LinkOut<u32>, pool: &mut Pool<u32>, first: u32, count: u32)
    requires exists { queue_of out.old < length pool.old.queues }
    requires room { count ≤ pool.old.spare }
    requires small { first + count < 2 ^ 32 }
    ensures same { out.new ≡ out.old }
    ensures number { length pool.new.queues ≡ length pool.old.queues }
    ensures spare { pool.new.spare + count ≡ pool.old.spare }
{
    'sending: for sent in 0..count {
        out.send(pool, first + sent);
    }
}

/// Whether the next items are so many numbers, from `first` on.
fn receives_numbers(into: &mut LinkIn<u32>, first: u32, count: u32) -> bool
    requires small { first + count < 2 ^ 32 }
    ensures same { SameIn into.old into.new }
{
    'receiving: for received in 0..count {
        if into.receive() != Some(first + received) {
            return false;
        }
    }
    true
}

#[test]
fn ten_items_cross_a_ring_of_eight(rt: HostRuntime) -> Result<(), Fail> {
    let mut pool = Pool::with_queues(rt.alloc(), 1)?;
    pool.reserve(10)?;
    let (mut out, mut into) = pair(rt.alloc(), 0)?;
    send_numbers(&mut out, &mut pool, 0, 10);
    out.flush(&mut pool);
    assert_eq!(rt; pool.len(0), 2);
    assert!(rt;
        receives_numbers(&mut into, 0, 8),
        "all that the ring holds"
    );
    assert_eq!(rt; into.receive(), None);
    assert!(rt; meet(&mut out, &mut pool, &mut into) == 2);
    assert!(rt; receives_numbers(&mut into, 8, 2), "what had waited");
    assert!(rt; meet(&mut out, &mut pool, &mut into) == 0);
    Ok(())
}

#[test]
fn two_links_share_a_pool(rt: HostRuntime) -> Result<(), Fail> {
    let mut pool = Pool::with_queues(rt.alloc(), 2)?;
    pool.reserve(11)?;
    let (mut one, mut from_one) = pair(rt.alloc(), 0)?;
    let (mut two, mut from_two) = pair(rt.alloc(), 1)?;
    send_numbers(&mut one, &mut pool, 10, 2);
    send_numbers(&mut two, &mut pool, 20, 9);
    one.flush(&mut pool);
    assert_eq!(rt; from_two.receive(), None);
    assert!(rt; meet(&mut two, &mut pool, &mut from_two) == 9);
    assert!(rt;
        receives_numbers(&mut from_two, 20, 8),
        "the second link's items"
    );
    assert!(rt;
        receives_numbers(&mut from_one, 10, 2),
        "the first link's items"
    );
    assert!(rt; meet(&mut one, &mut pool, &mut from_one) == 0);
    assert!(rt; meet(&mut two, &mut pool, &mut from_two) == 1);
    assert_eq!(rt; pool.spare(), 11);
    Ok(())
}

#[test]
fn items_that_own_memory_are_moved(rt: HostRuntime) -> Result<(), Fail> {
    let mut pool = Pool::with_queues(rt.alloc(), 1)?;
    pool.reserve(1)?;
    let (mut out, mut into) = pair(rt.alloc(), 0)?;
    out.send(&mut pool, List::from_vec(vec![in rt.alloc(); 1, 2]?));
    out.flush(&mut pool);
    let item = into.receive().ok_or("an item")?;
    assert_eq!(rt; item.as_slice(), [1, 2].as_slice());
    Ok(())
}
