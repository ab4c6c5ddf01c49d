use super::*;
use std::test::Fail;

/// Two draws, which stay at one counter.
fn draws_twice<N: Numbers>(numbers: &mut N) -> (Grant, Grant)
    ensures { N.stays numbers.old numbers.new }
{
    let first = numbers.draw();
    let second = numbers.draw();
    (first, second)
}

#[test]
fn two_numbers_and_no_third(rt: HostRuntime) -> Result<(), Fail> {
    let mut counter = PlainCounter::new(2);
    assert_eq!(rt; counter.draw(), Grant::Number(1));
    assert_eq!(rt; counter.draw(), Grant::Number(2));
    assert_eq!(rt; counter.count(), 2);
    assert!(rt; !counter.is_closed(), "no draw was refused yet");
    assert_eq!(rt; counter.draw(), Grant::Closed);
    assert_eq!(rt; counter.draw(), Grant::Closed);
    assert!(rt; counter.is_closed());
    assert_eq!(rt; counter.count(), 2);
    Ok(())
}

#[test]
fn whoever_gives_numbers_is_drawn_from(rt: HostRuntime) -> Result<(), Fail> {
    let mut counter = PlainCounter::new(MOST_LIMIT);
    let (first, second) = draws_twice(&mut counter);
    assert_eq!(rt; first, Grant::Number(1));
    assert_eq!(rt; second, Grant::Number(2));
    let mut last = PlainCounter::new(1);
    let (first, second) = draws_twice(&mut last);
    assert_eq!(rt; first, Grant::Number(1));
    assert_eq!(rt; second, Grant::Closed);
    Ok(())
}
