//! The limit of the numbers that a counter gives.
ghost use Rattle.std.specs.Prelude.{◌≡◌};

/// The greatest limit of a counter. The least is 1.
pub const MOST_LIMIT: u32 = 1_000_000;

/// The limits of a counter by their numbers.
pub fn counter_limits()
    ensures { MOST_LIMIT ≡ 1000000 }
{}
