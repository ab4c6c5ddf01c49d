use super::*;
use abc_value::List;
use std::test::Fail;

#[test]
fn two_queues_share_three_cells(rt: HostRuntime) -> Result<(), Fail> {
    let mut pool = Pool::with_queues(rt.alloc(), 2)?;
    assert_eq!(rt; pool.spare(), 0);
    pool.reserve(3)?;
    pool.push(0, 5);
    pool.push(1, 6);
    pool.push(0, 7);
    assert_eq!(rt; pool.spare(), 0);
    assert_eq!(rt; pool.pop(0), Some(5));
    assert_eq!(rt; pool.pop(0), Some(7));
    assert_eq!(rt; pool.pop(0), None);
    assert_eq!(rt; pool.pop(1), Some(6));
    assert_eq!(rt; pool.spare(), 3);
    assert_eq!(rt; pool.cells(), 3);
    Ok(())
}

#[test]
fn items_that_own_memory_are_moved(rt: HostRuntime) -> Result<(), Fail> {
    let alloc = rt.alloc();
    let mut pool = Pool::with_queues(alloc, 3)?;
    pool.reserve(1)?;
    pool.push(2, List::from_vec(vec![in alloc; 1, 2]?));
    pool.reserve(1)?;
    pool.push(2, List::from_vec(vec![in alloc; 3]?));
    assert!(rt; pool.len(2) == 2 && pool.cells() == 2 && pool.spare() == 0);
    assert!(rt;
        pool.front(0).is_none(),
        "nothing was pushed to the first queue"
    );
    let front = pool.front(2).ok_or("an item")?;
    assert_eq!(rt; front.as_slice(), [1, 2].as_slice());
    let first = pool.pop(2).ok_or("an item")?;
    assert_eq!(rt; first.as_slice(), [1, 2].as_slice());
    assert!(rt; pool.len(2) == 1 && pool.spare() == 1);
    Ok(())
}
