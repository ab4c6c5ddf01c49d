use abc_packet::Choice;
use abc_value::{List, NoMemory};
use std::alloc::Global;

/// A number, and the one behind its `.`, where there is one.
fn numbers_of(word: &str) -> (u32, Option<u32>) {
    match word.split_once('.') {
        Some((first, second)) => (
            first.parse::<u32>().unwrap_or(0),
            second.parse::<u32>().ok(),
        ),
        None => (0, None),
    }
}

/// The choice of a word: by `0.2,1.0,3.1` component 0 speaks at place 2, component 1 hears at place 0
/// and component 3 at place 1; by `0.-` component 0 makes its empty step.
pub fn choice_of(alloc: Global, word: &str) -> Result<Choice, NoMemory> {
    let mut told = word.split(',');
    let (sender, place) = numbers_of(told.next().unwrap_or(""));
    let mut heard = List::new(alloc);
    for hearer in told {
        let (hearer, at) = numbers_of(hearer);
        heard.push((hearer, at.unwrap_or(0)))?;
    }
    Ok(Choice {
        sender,
        place,
        heard,
    })
}
