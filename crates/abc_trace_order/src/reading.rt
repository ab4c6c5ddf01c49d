//! What was read of a trace so far.
use abc_lexer::Names;
use abc_trace::{EnvLine, Head, Line};
use abc_value::List;

/// What was read of a trace so far: its first line, and of the others those that came.
#[derive(Drop)]
pub struct Reading<'t> {
    pub head: Head,
    pub lines: List<Line>,
    pub finals: List<EnvLine>,
    pub handled: List<u64>,
    /// The words of the names, each at its number.
    pub names: Names<'t>,
    /// The words of the components whose lines came.
    pub components: Names<'t>,
}

/// What a line is.
#[derive(Clone, Copy, Debug, PartialEq, Eq)]
pub enum Step {
    /// A line with which no trace goes on.
    Bad,
    /// A line behind which more must come.
    More,
    /// The last line.
    Last,
}
