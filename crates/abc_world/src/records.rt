//! What is left of a network: the logs of its actors.
ghost use Rattle.std.specs.Prelude.{◌≡◌, ◌+◌, ◌≤◌, ◌++◌, length, map, vec_len, vec_capacity};
ghost use Rattle.abc_net.specs.Records.{entries_of};
ghost use Rattle.abc_schedule.specs.Schedules.{log_in};
ghost use Rattle.abc_world.specs.Teams.{actor_in};
ghost use Rattle.abc_world.specs.Runnings.{node_in};

use crate::node::Node;
use abc_agent::Agent;
use abc_body::Body;
use abc_packet::Log;
use std::collections::VecDeque;

/// The logs of agents go to the end of a list that has room for them.
pub(crate) fn leave_agents<B: Body>(agents: Vec<Agent<'_, B>>, logs: &mut Vec<Log<B::Label>>)
    requires room { vec_len logs.old + length agents.items ≤ vec_capacity logs.old }
    ensures logs { entries_of logs.new.items
        ≡ entries_of logs.old.items ++ map log_in (map actor_in agents.entry.items) }
    ensures len { vec_len logs.new ≡ vec_len logs.old + length agents.entry.items }
    ensures capacity { vec_capacity logs.new ≡ vec_capacity logs.old }
{
    let mut left = VecDeque::from(agents);
    'leaving: while let Some(agent) = left.pop_front() {
        logs.push_reserved(agent.into_log());
    }
}

/// The logs of nodes, likewise.
pub(crate) fn leave_nodes<L: Drop, M: Node<L>>(nodes: Vec<M>, logs: &mut Vec<Log<L>>)
    requires room { vec_len logs.old + length nodes.items ≤ vec_capacity logs.old }
    ensures logs { entries_of logs.new.items
        ≡ entries_of logs.old.items ++ map log_in (map node_in (map M.node nodes.items)) }
    ensures len { vec_len logs.new ≡ vec_len logs.old + length nodes.items }
    ensures capacity { vec_capacity logs.new ≡ vec_capacity logs.old }
{
    let mut left = VecDeque::from(nodes);
    'leaving: while let Some(node) = left.pop_front() {
        logs.push_reserved(node.into_log());
    }
}
