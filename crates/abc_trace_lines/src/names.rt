//! Names: words of at most 32 bytes that are no keyword.
ghost use Rattle.std.specs.Prelude.{◌≡◌, ℕ, List, false, MatchOption, MatchBool};
ghost use Rattle.std.specs.List.{AllPass};
ghost use Rattle.abc_text.specs.Tokens as spec;
ghost use Rattle.abc_trace.specs.WellFormed.{IsName};
ghost use Rattle.abc_trace_lines.specs.Fronts.{IsNameBefore, IsNameFront};

use crate::fronts::{behind_mark, cut_word, is_letter};
use abc_text::{MOST_NAME, keyword_at};

/// Whether bytes of a word are a name.
fn is_name(word: &[u8]) -> bool
    requires { AllPass spec.is_word_byte word.now }
    ensures { MatchBool result (IsName word.now) (¬ (IsName word.now)) }
{
    match word.split_first() {
        None => false,
        Some((first, _)) => {
            if !is_letter(*first) || word.len() > MOST_NAME {
                return false;
            }
            match keyword_at(word) {
                Some(_) => false,
                None => true,
            }
        }
    }
}

/// The name at the front, and what follows it.
pub fn name(bytes: &[u8]) -> Option<(&[u8], &[u8])>
    ensures { MatchOption result
        ((word : List ℕ) (more : List ℕ) → ¬ (IsNameFront bytes.now word more))
        (λ r. IsNameFront bytes.now r.0.now r.1.now) }
{
    let (word, more) = cut_word(bytes);
    if is_name(word) {
        Some((word, more))
    } else {
        None
    }
}

/// The name at the front before a byte that no word has, and what follows that byte.
pub fn name_before(bytes: &[u8], mark: u8) -> Option<(&[u8], &[u8])>
    requires { spec.is_word_byte mark ≡ false }
    ensures { MatchOption result
        ((word : List ℕ) (more : List ℕ) → ¬ (IsNameBefore mark bytes.now word more))
        (λ r. IsNameBefore mark bytes.now r.0.now r.1.now) }
{
    let Some((word, rest)) = name(bytes) else {
        return None;
    };
    let Some(more) = behind_mark(rest, mark) else {
        return None;
    };
    Some((word, more))
}
