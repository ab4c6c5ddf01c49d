//! When an agent can have its turn.
ghost use Rattle.abc_network_runs.specs.Turning.{TurnsWaitForNobody, ComponentsTurn};

use abc_body::Body;

/// In every state of every network, an agent can have its turn just where it has the next number,
/// and its body speaks as the turn picks or can't speak. So no turn waits for another agent, for a
/// node or for what is on a link.
pub fn turns_wait_for_nobody<B: Body>()
    ensures { TurnsWaitForNobody B.meaning }
{}

/// An agent that moves a component can have its turn just where it has the next number, in every
/// state of every network.
pub fn components_turn_at_their_number()
    ensures { ComponentsTurn }
{}
