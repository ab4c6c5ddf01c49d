//! Reading a scalar.
ghost use Rattle.std.specs.Prelude.{◌≡◌, ◌≤◌, ◌⊎◌, length, drop, slice_index};
ghost use Rattle.abc_value.specs.Reading.{ReadsScalar, IsNoMark};

use crate::bytes::{begins_with, first_byte};
use crate::number::{natural, negative};
use crate::quoted::text;
use crate::scalar::Scalar;

/// The scalar whose text is the longest front of the bytes that is one, and that front's length.
pub fn read_scalar(bytes: &[u8]) -> Option<(Scalar, usize)>
    ensures { ReadsScalar bytes.now result }
{
    match first_byte(bytes) {
        b'"' => text(bytes),
        b't' | b'f' => truth(bytes),
        b'-' => negative(bytes),
        _ => natural(bytes),
    }
}

/// The same of the bytes from a place on.
pub fn read_scalar_at(bytes: &[u8], at: usize) -> Option<(Scalar, usize)>
    requires { at ≤ length bytes.now }
    ensures { ReadsScalar (drop at bytes.now) result }
{
    read_scalar(&bytes[at..])
}

fn truth(bytes: &[u8]) -> Option<(Scalar, usize)>
    requires { (slice_index bytes.now 0 ≡ 116) ⊎ (slice_index bytes.now 0 ≡ 102) }
    ensures { ReadsScalar bytes.now result }
{
    if begins_with(bytes, b"true") {
        return Some((Scalar::Truth(true), 4));
    }
    if begins_with(bytes, b"false") {
        return Some((Scalar::Truth(false), 5));
    }
    None
}
