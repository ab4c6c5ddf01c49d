//! One multicast of all components.
ghost use Rattle.std.specs.Prelude.{◌≡◌, ◌≤◌, ◌<◌, ◌^◌, length, map, slice_get, slice_set, IfOk, OnErr, MatchOption, Some};
ghost use Rattle.abc_term.specs.Standing.{definitions_of};
ghost use Rattle.abc_term.specs.Speaking.{outs};
ghost use Rattle.abc_steps.specs.Rows.{TellsStep};
ghost use Rattle.abc_moves.specs.Labels.{label_of};
ghost use Rattle.abc_system.specs.declared.member.Member.{Member};
ghost use Rattle.abc_system.specs.Members.{now_in, live_of, RunUnder};
ghost use Rattle.abc_system.specs.Saying.{IsSaidBy, IsSaidAtTurn, CanSay, CannotSay};
ghost use Rattle.abc_system.specs.Turns.{turn_of};
ghost use Rattle.abc_system.specs.Casts.{IsCast};
ghost use Rattle.abc_system.specs.Systems.{row_of, IsRowOf};

use crate::cast::Cast;
use crate::member::{Member, put_all};
use crate::prepare::prepare_hearers;
use crate::row::StepRow;
use crate::turn::Turn;
use abc_moves::{Label, Move};
use abc_term::Definition;
use abc_value::{List, NoMemory};

/// An output of a component, made ready: its place, what it says, and the move by which the component says it.
#[derive(Drop)]
pub struct Said<'p> {
    pub place: u32,
    pub label: Label,
    pub made: Move<'p>,
}

/// Makes ready the output at a place of the component of a number; None where it has no such output or is not
/// there.
pub fn say<'p>(
    definitions: &[Definition],
    members: &[Member<'p>],
    sender: u32,
    place: u32,
) -> Result<Option<Said<'p>>, NoMemory>
    requires under { RunUnder definitions.now members.now }
    ensures { IfOk result (λ o. MatchOption o (CannotSay (definitions_of definitions.now) (map now_in members.now) sender place)
        (λ s. IsSaidBy (definitions_of definitions.now) members.now sender place s)) }
{
    let Some(member) = members.get(sender as usize) else {
        return Ok(None);
    };
    if member.live.outputs() <= place {
        return Ok(None);
    }
    let (label, made) = member.live.prepare_output(place)?;
    Ok(Some(Said { place, label, made }))
}

/// Makes ready the output of the component of a number at the place of a turn.
pub fn say_at_turn<'p>(
    definitions: &[Definition],
    members: &[Member<'p>],
    sender: u32,
    turn: Turn,
) -> Result<Said<'p>, NoMemory>
    requires under { RunUnder definitions.now members.now }
    requires can { CanSay (definitions_of definitions.now) (map now_in members.now) sender }
    ensures { IfOk result (IsSaidAtTurn (definitions_of definitions.now) members.now sender (turn_of turn)) }
{
    let member = &members[sender as usize];
    let place = turn.place_among(member.live.outputs());
    let (label, made) = member.live.prepare_output(place)?;
    Ok(Said { place, label, made })
}

/// The move stands ready for the component of a number.
fn make_ready<'p>(members: &mut [Member<'p>], number: u32, made: Move<'p>)
    requires { number < length members.old }
    ensures { (m : Member) → slice_get members.old number ≡ Some m →
        members.new ≡ slice_set members.old number (record { live = m.live; next = Some made.entry }) }
{
    members[number as usize].next = Some(made);
}

/// The component of a number says what is ready, and these hear it, all at once. After `NoMemory` all
/// components are as before.
pub fn multicast<'p>(
    definitions: &[Definition],
    members: &mut [Member<'p>],
    cast: Cast<'p>,
) -> Result<StepRow, NoMemory>
    requires under { RunUnder definitions.now members.old }
    requires few { length members.old < 2 ^ 32 }
    requires cast { IsCast (definitions_of definitions.now) members.old cast }
    ensures step { IfOk result (λ r. TellsStep (definitions_of definitions.now) (map now_in members.old) (row_of r) (map now_in members.new)) }
    ensures row { IfOk result (λ r. IsRowOf cast.entry r) }
    ensures err { OnErr result (map now_in members.new ≡ map now_in members.old) }
    ensures program { RunUnder definitions.now members.new }
    ensures count { length members.new ≡ length members.old }
{
    let Cast {
        sender,
        said,
        heard,
    } = cast;
    let Said { place, label, made } = said;
    prepare_hearers(definitions, sender, &label, members, heard.as_slice())?;
    make_ready(members, sender, made);
    put_all(members);
    Ok(StepRow {
        sender,
        spoke: Some((place, label)),
        heard,
    })
}
