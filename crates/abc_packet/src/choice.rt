use abc_value::List;

/// Which step of a system is made. One without place and hearers is the empty step.
#[derive(Debug, Drop)]
pub struct Choice {
    /// The number of the component that speaks.
    pub sender: u32,
    /// The place of its output.
    pub place: Option<u32>,
    /// The numbers of those that hear, in rising order, each with the place of its input.
    pub heard: List<(u32, u32)>,
}
