/// The most parts that a component can have side by side.
pub const WIDEST: usize = 64;

/// The most parts that a walk over the unguarded part of a process meets.
pub const BROADEST: usize = 2048;

/// The most components of a program.
pub const MOST_COMPONENTS: usize = 256;
