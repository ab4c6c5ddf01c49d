use abc_value::NoMemory;
use std::alloc::{AllocError, AllocFailed};

/// Why a program was not made.
#[derive(Clone, Copy, Debug)]
pub enum Mistake {
    NoMemory,
    /// Something is taken, and nothing waits.
    NothingWaits,
    /// Something waits that nothing took.
    SomethingWaits,
    UnknownWord,
    TooLong,
    /// The checks refuse the program.
    Refused,
}

impl From<NoMemory> for Mistake {
    fn from(_e: NoMemory) -> Mistake {
        Mistake::NoMemory
    }
}

impl From<AllocError> for Mistake {
    fn from(_e: AllocError) -> Mistake {
        Mistake::NoMemory
    }
}

impl<T: Drop> From<AllocFailed<T>> for Mistake {
    fn from(_e: AllocFailed<T>) -> Mistake {
        Mistake::NoMemory
    }
}
