//! Two runs of clusters, followed event by event through the definitions, with components as bodies.
ghost use Rattle.abc_network_runs.specs.EarlyNumber.{EarlyNumber};
ghost use Rattle.abc_network_runs.specs.LateOutput.{LateOutput};

/// A component may say something as it asks for a number, and no longer as its number comes: then
/// nothing is said at that number.
pub fn a_late_output()
    ensures { LateOutput }
{}

/// A number that comes before an earlier one is stored until the earlier one was taken.
pub fn an_early_number()
    ensures { EarlyNumber }
{}
