/// The most actions that no other action guards in a part of a checked program, calls unfolded.
pub const MOST_ACTIONS: usize = 1024;

/// The most enabled outputs of a component, and the most of its inputs that take a message: 64 parts
/// side by side, with 1,024 actions in each. A place, which is below this number, fits 16 bits.
pub const MOST_MOVES: usize = 65_536;
