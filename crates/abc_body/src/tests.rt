use super::*;
use std::alloc::Global;
use std::test::Fail;

/// Where it can, the speaker says something and the hearer hears it. It answers the two places.
fn tell<B: Body>(
    alloc: Global,
    speaker: &mut B,
    hearer: &mut B,
    turn: u64,
) -> Result<Option<(u32, Option<u32>)>, NoMemory>
    requires speaker { B.meaning.sound speaker.old }
    requires hearer { B.meaning.sound hearer.old }
    ensures speaker { B.meaning.sound speaker.new }
    ensures hearer { B.meaning.sound hearer.new }
{
    if !speaker.can_speak() {
        return Ok(None);
    }
    let (place, said, logged) = speaker.speak(alloc, turn)?;
    drop(logged);
    let heard = hearer.hear(alloc, said.get(), turn)?;
    Ok(Some((place, heard)))
}

#[test]
fn tallies_tell_one_another(rt: HostRuntime) -> Result<(), Fail> {
    let alloc = rt.alloc();
    let mut one = Tally::new(7);
    let mut other = Tally::new(8);
    assert_eq!(rt; tell(alloc, &mut one, &mut other, 4)?, Some((0, Some(0))));
    assert_eq!(rt;
        tell(alloc, &mut one, &mut other, 5)?,
        Some((1, None)),
        "the other is full"
    );
    assert_eq!(rt;
        tell(alloc, &mut one, &mut other, 6)?,
        None,
        "and the one is now"
    );
    assert_eq!(rt; (one.count(), other.count()), (9, 9));
    Ok(())
}

#[test]
fn a_tally_says_its_count(rt: HostRuntime) -> Result<(), Fail> {
    let alloc = rt.alloc();
    let mut tally = Tally::new(4);
    let (place, said, logged) = tally.speak(alloc, 3)?;
    assert_eq!(rt; (place, *said.get(), *logged.get()), (1, 4, 4));
    assert_eq!(rt; tally.count(), 5);
    Ok(())
}
