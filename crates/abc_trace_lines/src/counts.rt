//! The lines of nodes, and the last line.
ghost use Rattle.std.specs.Prelude.{◌≡◌, ℕ, Bool, MatchOption};
ghost use Rattle.abc_trace_lines.specs.Fronts.{IsNumberText};
ghost use Rattle.abc_trace_lines.specs.Plain.{Node, Last};
ghost use Rattle.abc_trace_lines.specs.Reading.{IsLine, IsTwoNumbers};

use crate::fronts::behind;
use crate::numbers::{number_before, whole_number};

/// Two numbers, parted by a space.
pub fn two_numbers(bytes: &[u8]) -> Option<(u64, u64)>
    ensures { MatchOption result ((m n : ℕ) → ¬ (IsTwoNumbers bytes.now m n))
        (λ r. IsTwoNumbers bytes.now r.0 r.1) }
{
    let Some((first, more)) = number_before(bytes, b' ') else {
        return None;
    };
    let Some(second) = whole_number(more) else {
        return None;
    };
    Some((first, second))
}

/// `node K HANDLED`: the node, and how many packets it handled.
pub fn read_node(line: &[u8]) -> Option<(u64, u64)>
    ensures { MatchOption result ((node handled : ℕ) → ¬ (IsLine line.now (Node node handled)))
        (λ r. IsLine line.now (Node r.0 r.1)) }
{
    match behind(line, b"node ") {
        Some(numbers) => two_numbers(numbers),
        None => None,
    }
}

/// How the run ended, with the number that the digits write.
fn counted(limited: bool, digits: &[u8]) -> Option<(bool, u64)>
    ensures { MatchOption result ((n : ℕ) → ¬ (IsNumberText digits.now n))
        (λ r. (r.0 ≡ limited) × IsNumberText digits.now r.1) }
{
    match whole_number(digits) {
        Some(count) => Some((limited, count)),
        None => None,
    }
}

/// `limit K` or `quiet K`: whether the limit was reached, and the number.
pub fn read_last(line: &[u8]) -> Option<(bool, u64)>
    ensures { MatchOption result
        ((limited : Bool) (count : ℕ) → ¬ (IsLine line.now (Last limited count)))
        (λ r. IsLine line.now (Last r.0 r.1)) }
{
    if let Some(digits) = behind(line, b"limit ") {
        return counted(true, digits);
    }
    match behind(line, b"quiet ") {
        Some(digits) => counted(false, digits),
        None => None,
    }
}
