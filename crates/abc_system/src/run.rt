use crate::row::StepRow;
use abc_pred::Env;
use abc_value::List;

/// A run of a program.
#[derive(Drop)]
pub struct Run {
    pub steps: List<StepRow>,
    /// The attributes of all components with their values, after the last step.
    pub finals: List<Env>,
    /// Whether no component of the last system can speak.
    pub silent: bool,
}
