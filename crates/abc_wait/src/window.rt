//! A window of numbers: a place for each number from the first on.
ghost use Rattle.std.specs.Prelude.{◌≡◌, ◌+◌, ◌^◌, ◌<◌, ◌≤◌, [], length, IfNone, IfSome, OnSome, OnOk, OnErr};
ghost use Rattle.std.specs.Option.{option_copied};
ghost use Rattle.abc_wait.specs.Waits.{item_beside};
ghost use Rattle.abc_wait.specs.Windows.{items_from, IsFirst, IsWidened};

use abc_value::NoMemory;
use std::collections::VecDeque;

/// The item under a number that is not before the window.
pub(crate) fn item_in<T>(places: &VecDeque<Option<T>>, first: u64, number: u32) -> Option<&T>
    requires { first ≤ number }
    ensures { option_copied result ≡ item_beside (items_from first places.now.items) number }
{
    let place = (u64::from(number) - first) as usize;
    if place < places.len() {
        places[place].as_ref()
    } else {
        None
    }
}

/// Makes the window so many places long, if it is shorter; after NoMemory it is as before.
pub(crate) fn widen<T: Drop>(
    places: &mut VecDeque<Option<T>>,
    length_wanted: usize,
) -> Result<(), NoMemory>
    ensures ok { OnOk result (IsWidened length_wanted places.old.items places.new.items) }
    ensures err { OnErr result (places.new.items ≡ places.old.items) }
{
    let missing = length_wanted.saturating_sub(places.len());
    places.reserve(missing)?;
    'widening: for pushed in 0..missing {
        places.push_back_reserved(None);
    }
    Ok(())
}

/// Takes the first item and all places up to it; None where the window has no item.
pub(crate) fn take_first<T>(first: &mut u64, places: &mut VecDeque<Option<T>>) -> Option<T>
    requires { first.old + length places.old.items ≤ 2 ^ 32 }
    ensures none { IfNone result (items_from first.old places.old.items ≡ []) }
    ensures taken { IfSome result (IsFirst first.old places.old.items first.new places.new.items) }
    ensures rises { OnSome result (first.old < first.new) }
    ensures bounded { first.new + length places.new.items ≡ first.old + length places.old.items }
{
    while let Some(place) = places.pop_front() {
        *first += 1;
        if let Some(item) = place {
            return Some(item);
        }
    }
    None
}
