use abc_cause::Cause;
use thiserror::Error;

/// Why a text is not read: the place, counted in bytes from 0, and the cause of the first thing wrong
/// with it; or want of memory.
#[derive(Clone, Copy, Debug, PartialEq, Eq, Error)]
pub enum TextRefusal {
    #[error("refused at {place}: {cause:?}")]
    Refused { place: u32, cause: Cause },
    #[error("no memory")]
    NoMemory,
}
