//! Choices from words, and from the rows of a run.
use abc_packet::Choice;
use abc_shown::choice_of;
use abc_system::StepRow;
use abc_value::{List, NoMemory};
use std::alloc::Global;

/// The choices of these words.
pub fn choices_of(alloc: Global, words: &[String]) -> Result<List<Choice>, NoMemory> {
    let mut choices = List::new(alloc);
    for word in words {
        choices.push(choice_of(alloc, word.as_str())?)?;
    }
    Ok(choices)
}

/// The choice of a step that was made.
fn choice_made(alloc: Global, row: &StepRow) -> Result<Choice, NoMemory> {
    let mut heard = List::new(alloc);
    heard.extend_from_slice(row.heard.as_slice())?;
    let place = match &row.spoke {
        Some((place, _)) => Some(*place),
        None => None,
    };
    Ok(Choice {
        sender: row.sender,
        place,
        heard,
    })
}

/// The choices of steps that were made.
pub fn choices_made(alloc: Global, steps: &[StepRow]) -> Result<List<Choice>, NoMemory> {
    let mut choices = List::new(alloc);
    for row in steps {
        choices.push(choice_made(alloc, row)?)?;
    }
    Ok(choices)
}
