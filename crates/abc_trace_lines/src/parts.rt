use abc_trace::Head;
use abc_value::{List, Value};

/// What a line tells of a multicast, its words and its predicate as they stand in the text.
#[derive(Drop)]
pub struct SaidParts<'t> {
    pub place: u32,
    pub values: List<Value>,
    pub pred: &'t [u8],
    /// Those that heard, each with its place.
    pub heard: List<(&'t [u8], u32)>,
}

/// What a line of a trace tells, its words as they stand in the text.
#[derive(Drop)]
pub enum LineParts<'t> {
    First(Head),
    /// The line of a number: the number, its sender, and what was said, None where nothing was.
    Number(u64, &'t [u8], Option<SaidParts<'t>>),
    /// A component and its attributes with their values.
    Env(&'t [u8], List<(&'t [u8], Value)>),
    /// A node and how many packets it handled.
    Node(u64, u64),
    /// Whether the limit was reached, and how many numbers there were.
    Last(bool, u64),
}
