//! Lines and their places in a text.
ghost use Rattle.std.specs.Prelude.{◌≡◌, ◌+◌, ◌≤◌, ◌<◌, ◌^◌, ◌++◌, ◌∷◌, ℕ, length, MatchOption};
ghost use Rattle.abc_trace_order.specs.Texts.{IsOneLine};

/// The first line of the bytes, without its line feed, and what stands behind that; None where no byte
/// is a line feed.
pub fn first_line<'t>(bytes: &'t [u8]) -> Option<(&'t [u8], &'t [u8])>
    ensures { MatchOption result (IsOneLine bytes.now) (λ s.
        (bytes.now ≡ s.0.now ++ 10 ∷ s.1.now) × IsOneLine s.0.now) }
{
    for (index, byte) in bytes.iter().enumerate() {
        if *byte == b'\n' {
            return Some((&bytes[..index], &bytes[index + 1..]));
        }
    }
    None
}

/// The place at which the rest of a text begins.
pub fn place_of(bytes: &[u8], rest: &[u8]) -> u32
    requires back { length rest.now ≤ length bytes.now }
    requires short { length bytes.now < 2 ^ 32 }
    ensures { result + length rest.now ≡ length bytes.now }
{
    (bytes.len() - rest.len()) as u32
}
