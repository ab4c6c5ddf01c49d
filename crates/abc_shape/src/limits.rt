//! The contract is a law, and the body does nothing.

ghost use Rattle.abc_shape.specs.Laws.{LimitsOfPlans};

/// A plan has 1 to 256 agents and 1 to 64 nodes, and no others.
pub fn limits_of_plans()
    ensures { LimitsOfPlans }
{}
