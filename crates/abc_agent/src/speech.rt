//! What a body says at its number, and how it hears what others said.
ghost use Rattle.std.specs.Prelude.{◌≡◌, IfOk, OnErr};
ghost use Rattle.abc_network.specs.Agents.{Speaking, Hearing, PicksToSpeak, PicksToHear};

use abc_body::Body;
use abc_packet::{Content, NoMemory};
use std::alloc::Global;

/// What was said at one number.
#[derive(Drop)]
pub(crate) struct Speech<L> {
    /// The place at which the body spoke; None where it said nothing.
    pub(crate) place: Option<u32>,
    /// What it said, for the message.
    pub(crate) said: Content<L>,
    /// The same, for the log.
    pub(crate) logged: Content<L>,
}

/// The body speaks where it can, and says nothing where it can't. After NoMemory it is as before.
pub(crate) fn speak<B: Body>(
    alloc: Global,
    body: &mut B,
    turn: u64,
) -> Result<Speech<B::Label>, NoMemory>
    requires { B.meaning.sound body.old }
    ensures spoke { IfOk result (λ s. Speaking B.meaning body.old s.place s.said body.new) }
    ensures place { IfOk result (λ s. PicksToSpeak B.meaning body.old turn s.place s.said) }
    ensures logged { IfOk result (λ s. s.logged ≡ s.said) }
    ensures sound { B.meaning.sound body.new }
    ensures err { OnErr result (body.new ≡ body.old) }
{
    if !body.can_speak() {
        return Ok(Speech {
            place: None,
            said: Content::Empty,
            logged: Content::Empty,
        });
    }
    let (place, said, logged) = body.speak(alloc, turn)?;
    Ok(Speech {
        place: Some(place),
        said: Content::Said(said),
        logged: Content::Said(logged),
    })
}

/// The body hears what was said, and answers the place; where nothing was said it stays, at no place.
/// After NoMemory it is as before.
pub(crate) fn hear<B: Body>(
    alloc: Global,
    body: &mut B,
    content: &Content<B::Label>,
    turn: u64,
) -> Result<Option<u32>, NoMemory>
    requires { B.meaning.sound body.old }
    ensures heard { IfOk result (λ place. Hearing B.meaning body.old place content.now body.new) }
    ensures place { IfOk result (λ place. PicksToHear B.meaning body.old turn place content.now) }
    ensures sound { B.meaning.sound body.new }
    ensures err { OnErr result (body.new ≡ body.old) }
{
    match content {
        Content::Said(label) => body.hear(alloc, label.get(), turn),
        Content::Empty => Ok(None),
    }
}
