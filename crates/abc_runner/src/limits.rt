//! The limits of a call's input and of the numbers in a command, each stated once.

/// The most bytes that a source may have.
pub const MOST_SOURCE: usize = 1_048_576;

/// The greatest limit times the number of components.
pub const MOST_PRODUCT: u64 = 1_000_000;

/// The most workers of a network. The least is 1.
pub const MOST_WORKERS: u64 = 16;

/// The greatest number of a generated program. The least is 0.
pub const MOST_NUMBER: u64 = 65_536;

/// The fewest vertices of a generated program.
pub const LEAST_SIZE: u64 = 2;

/// The most vertices of a generated program.
pub const MOST_SIZE: u64 = 64;
