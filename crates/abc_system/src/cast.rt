//! A multicast made ready: who speaks, what it says, and who hears.
ghost use Rattle.std.specs.Prelude.{◌≡◌, ◌<◌, ◌^◌, length, map, Some, IfOk, MatchOption};
ghost use Rattle.abc_term.specs.Standing.{definitions_of};
ghost use Rattle.abc_term.specs.Systems.{IsSilent};
ghost use Rattle.abc_system.specs.Members.{now_in, RunUnder};
ghost use Rattle.abc_system.specs.Turns.{turn_of};
ghost use Rattle.abc_system.specs.Casts.{IsNoCast, IsCastBy, IsCastAt};

use crate::hearers::{can_hear, hearers};
use crate::member::Member;
use crate::multicast::{Said, say, say_at_turn};
use crate::speakers::{speaker_at, speakers};
use crate::turn::Turn;
use abc_packet::Choice;
use abc_term::Definition;
use abc_value::{List, NoMemory};
use std::alloc::Global;

/// What a multicast is made of.
#[derive(Drop)]
pub struct Cast<'p> {
    /// The number of the component that speaks.
    pub sender: u32,
    pub said: Said<'p>,
    /// Those that hear, each with the place of its input.
    pub heard: List<(u32, u32)>,
}

/// The multicast of a choice with this place; None exactly where the rules have no such step.
pub fn cast_by<'p>(
    alloc: Global,
    definitions: &[Definition],
    members: &[Member<'p>],
    choice: &Choice,
    place: u32,
) -> Result<Option<Cast<'p>>, NoMemory>
    requires under { RunUnder definitions.now members.now }
    requires few { length members.now < 2 ^ 32 }
    ensures { IfOk result (λ o. MatchOption o (IsNoCast (definitions_of definitions.now) (map now_in members.now) choice.now place)
        (IsCastBy (definitions_of definitions.now) members.now choice.now place)) }
{
    let Some(said) = say(definitions, members, choice.sender, place)? else {
        return Ok(None);
    };
    if !can_hear(
        definitions,
        choice.sender,
        &said.label,
        0,
        members,
        choice.heard.as_slice(),
    ) {
        return Ok(None);
    }
    let mut heard = List::new(alloc);
    heard.extend_from_slice(choice.heard.as_slice())?;
    Ok(Some(Cast {
        sender: choice.sender,
        said,
        heard,
    }))
}

/// The multicast by the rule of places at a turn; None exactly where no component can speak.
pub fn cast_at<'p>(
    alloc: Global,
    definitions: &[Definition],
    members: &[Member<'p>],
    turn: Turn,
) -> Result<Option<Cast<'p>>, NoMemory>
    requires under { RunUnder definitions.now members.now }
    requires few { length members.now < 2 ^ 32 }
    ensures { IfOk result (λ o. MatchOption o (IsSilent (definitions_of definitions.now) (map now_in members.now))
        (IsCastAt (definitions_of definitions.now) members.now (turn_of turn))) }
{
    let count = speakers(definitions, members);
    if count == 0 {
        return Ok(None);
    }
    let sender = speaker_at(definitions, 0, members, turn.place_among(count));
    let said = say_at_turn(definitions, members, sender, turn)?;
    let heard = hearers(alloc, definitions, sender, &said.label, turn, members)?;
    Ok(Some(Cast {
        sender,
        said,
        heard,
    }))
}
