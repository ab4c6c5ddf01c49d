//! What each component does as it hears a message is made ready.
ghost use Rattle.std.specs.Prelude.{◌≡◌, ◌<◌, ◌^◌, length, map, All, IfOk, OnOk};
ghost use Rattle.abc_term.specs.Standing.{definitions_of};
ghost use Rattle.abc_steps.specs.Hearers.{CanHear, AllHear};
ghost use Rattle.abc_moves.specs.Labels.{label_of};
ghost use Rattle.abc_system.specs.Members.{live_of, now_in, then_in, program_of, RunUnder, IsReady, CanTakePart, TakesPart};

use crate::hearers::listed;
use crate::member::Member;
use abc_moves::Label;
use abc_term::Definition;
use abc_value::NoMemory;

/// Makes ready what the component of this number does as it hears the message, where those listed from it on
/// are `heard`, and gives those listed behind it. The sender stays.
fn prepare_one<'h>(
    definitions: &[Definition],
    sender: u32,
    label: &Label,
    number: u32,
    member: &mut Member<'_>,
    heard: &'h [(u32, u32)],
) -> Result<&'h [(u32, u32)], NoMemory>
    requires under { program_of member.old ≡ definitions.now }
    requires can { CanTakePart (definitions_of definitions.now) sender (label_of label.now) number (now_in member.old) heard.now }
    ensures live { live_of member.new ≡ live_of member.old }
    ensures now { now_in member.new ≡ now_in member.old }
    ensures program { program_of member.new ≡ program_of member.old }
    ensures ready { IfOk result (λ _. IsReady member.new) }
    ensures part { IfOk result (λ rest. TakesPart (definitions_of definitions.now) sender (label_of label.now) number (now_in member.old) heard.now rest.now (then_in member.new)) }
{
    if number == sender {
        member.stay();
        return Ok(heard);
    }
    match listed(number, heard) {
        Some((place, rest)) => {
            member.next = Some(member.live.prepare_input(label, place)?);
            Ok(rest)
        }
        None => {
            member.stay();
            Ok(heard)
        }
    }
}

/// Makes ready what each component does as it hears the message. The sender stays.
pub fn prepare_hearers(
    definitions: &[Definition],
    sender: u32,
    label: &Label,
    members: &mut [Member<'_>],
    heard: &[(u32, u32)],
) -> Result<(), NoMemory>
    requires under { RunUnder definitions.now members.old }
    requires few { length members.old < 2 ^ 32 }
    requires can { CanHear (definitions_of definitions.now) sender (label_of label.now) 0 (map now_in members.old) heard.now }
    ensures live { map live_of members.new ≡ map live_of members.old }
    ensures now { map now_in members.new ≡ map now_in members.old }
    ensures program { map program_of members.new ≡ map program_of members.old }
    ensures ready { OnOk result (All IsReady members.new) }
    ensures hear { OnOk result (AllHear (definitions_of definitions.now) sender (label_of label.now) 0 (map now_in members.old) heard.now (map then_in members.new)) }
{
    let mut rest = heard;
    for (i, member) in members.iter_mut().enumerate() {
        rest = prepare_one(definitions, sender, label, i as u32, member, rest)?;
    }
    Ok(())
}
