//! The limits of values.

/// A set has at most this many members.
pub const MOST_MEMBERS: usize = 256;

/// A text has at most this many bytes.
pub const LONGEST_TEXT: usize = 64;

/// The least printable byte, the space.
pub const LEAST_PRINTABLE: u8 = 0x20;

/// The greatest printable byte, `~`.
pub const GREATEST_PRINTABLE: u8 = 0x7E;
