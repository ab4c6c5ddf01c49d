use abc_pred::{Name, Pred};
use abc_shape::Shape;
use abc_value::{List, ShortText, Value};

/// What a trace is of: which command ran with which numbers.
#[derive(Clone, Copy, Debug, PartialEq, Eq)]
pub enum Head {
    /// A run by the calculus on one thread.
    Solo {
        limit: u32,
        pick: u64,
    },
    /// A run of a network.
    Net {
        shape: Shape,
        limit: u32,
        nodes: u32,
        pick: u64,
    },
}

/// What happened under a number: who had it, and what it said; None where it had no output enabled.
#[derive(Drop)]
pub struct Line {
    pub sender: Name,
    pub said: Option<Said>,
}

/// A multicast.
#[derive(Drop)]
pub struct Said {
    /// The place of the output among the sender's enabled ones.
    pub place: u32,
    pub values: List<Value>,
    /// The closed predicate.
    pub pred: Pred,
    /// Those that heard, each with the place of its input among those that take the message.
    pub heard: List<(Name, u32)>,
}

/// The attributes of a component at the end, with their values.
#[derive(Drop)]
pub struct EnvLine {
    pub component: Name,
    pub entries: List<(Name, Value)>,
}

/// A trace. `names` has the word of each `Name` at that name's number.
#[derive(Drop)]
pub struct Trace {
    pub names: List<ShortText>,
    pub head: Head,
    /// What happened under the numbers from 1 on.
    pub lines: List<Line>,
    pub finals: List<EnvLine>,
    /// How many packets each node handled; none for a run on one thread.
    pub handled: List<u64>,
}

fn crosses_threads<T: Send + Sync>() {}

/// Traces may go to another thread and be shared.
fn traces_cross_threads() {
    crosses_threads::<Trace>();
}
