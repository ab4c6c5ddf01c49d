//! Each function's contract is a law, and its body does nothing.

ghost use Rattle.abc_shape_laws.specs.LinkLaws.{NumbersHaveOneLink, EndsHaveOneLink, NumbersAreBelow};
ghost use Rattle.abc_shape_laws.specs.RouteLaws.{RoutesAreOne, RoutesArrive, RoutesGoOn, WaysUpAreShort, WaysUpExist};
ghost use Rattle.abc_shape_laws.specs.CopyLaws.{ClusterCopies, RingCopies, TreeCopies};
ghost use Rattle.abc_shape_laws.specs.Flows.{TreeFlow, TreeSends};

/// The numbers below the count are those of the links. The number of a link and its ends determine each
/// other.
pub fn links_are_their_numbers()
    ensures number { NumbersHaveOneLink }
    ensures ends { EndsHaveOneLink }
    ensures count { NumbersAreBelow }
{}

/// A node has one route to an agent. The routes lead to the agent from every node, in a ring from its
/// home, and none leads straight back.
pub fn routes_arrive()
    ensures one { RoutesAreOne }
    ensures arrive { RoutesArrive }
    ensures go_on { RoutesGoOn }
{}

/// The way up from a home to the root of a tree has at most seven nodes.
pub fn trees_are_low()
    ensures exist { WaysUpExist }
    ensures short { WaysUpAreShort }
{}

/// In a cluster the copies of a message come to each agent but its sender by one path, and not to the
/// sender.
pub fn copies_in_clusters()
    ensures { ClusterCopies }
{}

/// In a ring the copies of a message come to each agent but its sender and to each node by one path, and
/// not to the sender.
pub fn copies_in_rings()
    ensures { RingCopies }
{}

/// So they do in a tree.
pub fn copies_in_trees()
    ensures { TreeCopies }
{}

/// A node of a tree sends on to its neighbours but the one from which it came. What a copy that came to it
/// was to come to is the node, or what those copies come to.
pub fn copies_are_counted()
    ensures sends { TreeSends }
    ensures flow { TreeFlow }
{}
