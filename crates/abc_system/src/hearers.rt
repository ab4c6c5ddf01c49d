//! Who hears a message.
ghost use Rattle.std.specs.Prelude.{◌≡◌, ◌≢◌, ◌<◌, ◌+◌, ◌^◌, ◌∷◌, ℕ, List, length, map, IsTrue, ◌↔◌, ◌++◌, MatchOption, IfOk, OnOk};
ghost use Rattle.abc_term.specs.Standing.{definitions_of};
ghost use Rattle.abc_steps.specs.Hearers.{CanHear, hearers_from};
ghost use Rattle.abc_moves.specs.Labels.{label_of};
ghost use Rattle.abc_system.specs.Members.{now_in, RunUnder};
ghost use Rattle.abc_system.specs.Turns.{turn_of, heard_here};

use crate::member::Member;
use crate::turn::Turn;
use abc_moves::Label;
use abc_term::Definition;
use abc_value::{List, NoMemory};
use std::alloc::Global;

/// Whether these components, numbered on from `number`, can hear the message so: the sender is not asked,
/// each listed one has the input that it is listed with, and no other one has an input that takes it.
#[tactic(auto, using(crate::proofs::Hearing::listed_hears, crate::proofs::Hearing::unlisted_hears, crate::proofs::Hearing::sender_hears))]
pub fn can_hear(
    definitions: &[Definition],
    sender: u32,
    label: &Label,
    number: u32,
    members: &[Member<'_>],
    heard: &[(u32, u32)],
) -> bool
    requires under { RunUnder definitions.now members.now }
    requires few { number + length members.now < 2 ^ 32 }
    ensures { IsTrue result ↔ CanHear (definitions_of definitions.now) sender (label_of label.now) number (map now_in members.now) heard.now }
{
    let Some((member, more)) = members.split_first() else {
        return heard.is_empty();
    };
    if number == sender {
        return can_hear(definitions, sender, label, number + 1, more, heard);
    }
    let inputs = member.live.inputs(label);
    match listed(number, heard) {
        Some((place, rest)) => {
            place < inputs && can_hear(definitions, sender, label, number + 1, more, rest)
        }
        None => inputs == 0 && can_hear(definitions, sender, label, number + 1, more, heard),
    }
}

/// The place with which a component is listed first, and those listed behind it; None where another one is
/// first.
pub fn listed(number: u32, heard: &[(u32, u32)]) -> Option<(u32, &[(u32, u32)])>
    ensures { MatchOption result
        ((place : ℕ) (rest : List (ℕ × ℕ)) → heard.now ≢ (number, place) ∷ rest)
        (λ r. heard.now ≡ (number, r.0) ∷ r.1.now) }
{
    match heard {
        [(first, place), rest @ ..] if *first == number => Some((*place, rest)),
        _ => None,
    }
}

/// Puts the component of this number behind those found before, with the place of the turn among its inputs,
/// where it has one.
fn put_hearer(
    turn: Turn,
    number: u32,
    inputs: u32,
    found: &mut List<(u32, u32)>,
) -> Result<(), NoMemory>
    ensures { OnOk result (found.new ≡ found.old ++ heard_here (turn_of turn) number inputs) }
{
    if inputs == 0 {
        return Ok(());
    }
    found.push((number, turn.place_among(inputs)))?;
    Ok(())
}

/// Puts those of the components, numbered on from `number`, that hear the message at this turn behind those
/// found before.
#[tactic(auto, using(crate::proofs::Hearing::hearers_with_sender))]
fn append_hearers(
    definitions: &[Definition],
    sender: u32,
    label: &Label,
    turn: Turn,
    number: u32,
    members: &[Member<'_>],
    found: &mut List<(u32, u32)>,
) -> Result<(), NoMemory>
    requires under { RunUnder definitions.now members.now }
    requires few { number + length members.now < 2 ^ 32 }
    ensures { OnOk result (found.new ≡ found.old ++ hearers_from (definitions_of definitions.now) sender (label_of label.now) (turn_of turn) number (map now_in members.now)) }
{
    let Some((member, more)) = members.split_first() else {
        return Ok(());
    };
    if number == sender {
        return append_hearers(definitions, sender, label, turn, number + 1, more, found);
    }
    let inputs = member.live.inputs(label);
    put_hearer(turn, number, inputs, found)?;
    append_hearers(definitions, sender, label, turn, number + 1, more, found)
}

/// Who hears the message by the rule of places at this turn, each with the place of its input.
pub fn hearers(
    alloc: Global,
    definitions: &[Definition],
    sender: u32,
    label: &Label,
    turn: Turn,
    members: &[Member<'_>],
) -> Result<List<(u32, u32)>, NoMemory>
    requires under { RunUnder definitions.now members.now }
    requires few { length members.now < 2 ^ 32 }
    ensures { IfOk result (λ hs. hs ≡ hearers_from (definitions_of definitions.now) sender (label_of label.now) (turn_of turn) 0 (map now_in members.now)) }
{
    let mut found = List::new(alloc);
    append_hearers(definitions, sender, label, turn, 0, members, &mut found)?;
    Ok(found)
}
