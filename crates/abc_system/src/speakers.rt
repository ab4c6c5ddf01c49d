//! Who can speak.
ghost use Rattle.std.specs.Prelude.{◌≡◌, ◌<◌, ◌≤◌, ◌+◌, ◌^◌, ℕ, length, map, slice_get, Some};
ghost use Rattle.abc_term.specs.Standing.{definitions_of};
ghost use Rattle.abc_steps.specs.Turns.{speakers_from};
ghost use Rattle.abc_system.specs.Members.{now_in, RunUnder};

use crate::member::Member;
use abc_term::Definition;

/// How many of the components can speak.
pub fn speakers(definitions: &[Definition], members: &[Member<'_>]) -> u32
    requires under { RunUnder definitions.now members.now }
    requires few { length members.now < 2 ^ 32 }
    ensures count { (i : ℕ) → result ≡ length (speakers_from i (definitions_of definitions.now) (map now_in members.now)) }
    ensures few { result ≤ length members.now }
{
    match members {
        [] => 0,
        [first, more @ ..] => {
            let rest = speakers(definitions, more);
            if first.live.can_speak() {
                rest + 1
            } else {
                rest
            }
        }
    }
}

/// The number of the component at a place among those that can speak. They are numbered on from `number`.
pub fn speaker_at(
    definitions: &[Definition],
    number: u32,
    members: &[Member<'_>],
    place: u32,
) -> u32
    requires under { RunUnder definitions.now members.now }
    requires few { number + length members.now < 2 ^ 32 }
    requires among { place < length (speakers_from number (definitions_of definitions.now) (map now_in members.now)) }
    ensures { slice_get (speakers_from number (definitions_of definitions.now) (map now_in members.now)) place ≡ Some result }
{
    match members {
        [] => unreachable!(),
        [first, more @ ..] => {
            if !first.live.can_speak() {
                speaker_at(definitions, number + 1, more, place)
            } else if place == 0 {
                number
            } else {
                speaker_at(definitions, number + 1, more, place - 1)
            }
        }
    }
}
