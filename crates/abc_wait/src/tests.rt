use super::*;
use abc_value::List;
use std::test::Fail;

#[test]
fn an_item_ahead_waits(rt: HostRuntime) -> Result<(), Fail> {
    let mut waits = WaitList::new(rt.alloc(), 1);
    waits.store(9, 'x')?;
    assert_eq!(rt; waits.len(), 1);
    assert!(rt; waits.has(9) && !waits.has(5) && !waits.has(0) && !waits.has(10));
    assert_eq!(rt; waits.get(9).copied(), Some('x'));
    assert!(rt; waits.take(5).is_none(), "nothing waits under 5");
    assert_eq!(rt; waits.take(9), Some('x'));
    assert!(rt; !waits.has(9) && waits.len() == 0);
    Ok(())
}

#[test]
fn the_last_numbers(rt: HostRuntime) -> Result<(), Fail> {
    let alloc = rt.alloc();
    let mut waits = WaitList::new(alloc, u32::MAX - 2);
    waits.store(u32::MAX, List::from_vec(vec![in alloc; 3, 4]?))?;
    waits.store(u32::MAX - 1, List::from_vec(vec![in alloc; 2]?))?;
    assert_eq!(rt; waits.len(), 2);
    let first = waits.take(u32::MAX - 1).ok_or("an item")?;
    assert_eq!(rt; first.as_slice(), [2].as_slice());
    assert_eq!(rt; waits.len(), 1);
    let last = waits.take(u32::MAX).ok_or("an item")?;
    assert_eq!(rt; last.as_slice(), [3, 4].as_slice());
    assert!(rt; waits.get(u32::MAX).is_none() && waits.get(0).is_none());
    assert!(rt; !waits.has(u32::MAX) && waits.len() == 0);
    Ok(())
}
