use abc_moves::Label;
use abc_value::List;

/// What a step was.
#[derive(Drop)]
pub struct StepRow {
    /// The number of the component that spoke.
    pub sender: u32,
    /// The place of its output and what it said; None where the step was empty.
    pub spoke: Option<(u32, Label)>,
    /// Those that heard, in rising order, each with the place of its input.
    pub heard: List<(u32, u32)>,
}
