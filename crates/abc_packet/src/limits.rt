//! The limits of what goes over links, each stated once.
ghost use Rattle.std.specs.Prelude.{◌≡◌, ◌^◌};

/// The greatest logical clock of a packet. The least is 0.
pub const MOST_CLOCK: u64 = 1 << 40;

/// The greatest sequence number in a packet.
pub const MOST_NUMBER: u32 = 1_000_001;

/// The limits of packets by their numbers.
pub fn packet_limits()
    ensures most_clock { MOST_CLOCK ≡ 2 ^ 40 }
    ensures most_number { MOST_NUMBER ≡ 1000001 }
{}
