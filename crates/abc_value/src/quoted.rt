//! Reading a text.
ghost use Rattle.std.specs.Prelude.{◌≡◌, ◌≤◌, length, drop, slice_index};
ghost use Rattle.abc_value.specs.Reading.{IsPiece, ReadsScalar};

use crate::limits::LONGEST_TEXT;
use crate::scalar::Scalar;
use crate::text::{ShortText, is_printable};

/// What stands next in a text.
#[derive(Clone, Copy, Debug)]
enum Piece {
    /// The closing quote.
    Quote,
    /// A byte, and in how many bytes it is written.
    Byte(u8, usize),
    /// Nothing that a text may have.
    Bad,
}

fn next_piece(bytes: &[u8]) -> Piece
    ensures { IsPiece bytes.now result }
{
    if bytes.is_empty() {
        return Piece::Bad;
    }
    let first = bytes[0];
    if first == b'"' {
        return Piece::Quote;
    }
    if first == b'\\' {
        return escape(bytes);
    }
    if !is_printable(first) {
        return Piece::Bad;
    }
    Piece::Byte(first, 1)
}

fn piece_at(bytes: &[u8], at: usize) -> Piece
    requires { at ≤ length bytes.now }
    ensures { IsPiece (drop at bytes.now) result }
{
    next_piece(&bytes[at..])
}

fn escape(bytes: &[u8]) -> Piece
    requires { slice_index bytes.now 0 ≡ 92 }
    ensures { IsPiece bytes.now result }
{
    if bytes.len() < 2 {
        return Piece::Bad;
    }
    let second = bytes[1];
    if second != b'"' && second != b'\\' {
        return Piece::Bad;
    }
    Piece::Byte(second, 2)
}

/// A scalar that is a text, from its opening quote on.
pub fn text(bytes: &[u8]) -> Option<(Scalar, usize)>
    requires { slice_index bytes.now 0 ≡ 34 }
    ensures { ReadsScalar bytes.now result }
{
    let mut held = ShortText::empty();
    let mut at = 1;
    'pieces: loop {
        match piece_at(bytes, at) {
            Piece::Quote => return Some((Scalar::Text(held), at + 1)),
            Piece::Byte(byte, width) => {
                if held.len() == LONGEST_TEXT {
                    return None;
                }
                held.push(byte);
                at += width;
            }
            Piece::Bad => return None,
        }
    }
}
