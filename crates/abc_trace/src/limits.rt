//! The limits of the numbers in a trace, each stated once.
ghost use Rattle.std.specs.Prelude.{◌≡◌, ◌-◌, ◌^◌};

/// The greatest number limit of a run. The least is 1.
pub const MOST_LIMIT: u64 = 100_000;

/// The greatest pick. The least is 0.
pub const MOST_PICK: u64 = 4_294_967_295;

/// The most sequencing nodes of a network. The least is 1.
pub const MOST_NODES: u64 = 64;

/// The greatest place of an output or an input.
pub const MOST_PLACE: u32 = 65_535;

/// The limits of a trace by their numbers.
pub fn trace_limits()
    ensures most_limit { MOST_LIMIT ≡ 100000 }
    ensures most_pick { MOST_PICK ≡ 2 ^ 32 - 1 }
    ensures most_nodes { MOST_NODES ≡ 64 }
    ensures most_place { MOST_PLACE ≡ 65535 }
{}
