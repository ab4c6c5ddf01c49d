//! The kinds of bytes, and how far a token goes.
ghost use Rattle.std.specs.Prelude.{◌≡◌, ◌≤◌, ◌<◌, ◌^◌, ◌-◌, ◌+◌, ◌*◌, length, take_while, min, fold, Some, None, IfSome};
ghost use Rattle.abc_text.specs.Tokens as spec;
ghost use Rattle.abc_lexer.specs.Scanning as scanning;

pub fn is_blank(b: u8) -> bool
    ensures { result ≡ spec.is_blank b }
{
    b == b' ' || b == b'\t' || b == b'\r' || b == b'\n'
}

pub fn is_letter(b: u8) -> bool
    ensures { result ≡ spec.is_letter b }
{
    (65 <= b && b <= 90) || (97 <= b && b <= 122)
}

pub fn is_digit(b: u8) -> bool
    ensures { result ≡ spec.is_digit b }
{
    48 <= b && b <= 57
}

fn is_word_byte(b: u8) -> bool
    ensures { result ≡ spec.is_word_byte b }
{
    is_letter(b) || is_digit(b) || b == b'_'
}

fn is_quote_mark(b: u8) -> bool
    ensures { result ≡ spec.is_quote_mark b }
{
    b == b'"' || b == b'\\'
}

fn is_printable(b: u8) -> bool
    ensures { result ≡ spec.is_printable b }
{
    32 <= b && b <= 126
}

/// The bytes after blanks and comments.
#[tactic(auto, unfolding(abc_text::specs::Tokens::skip))]
pub fn skip(bytes: &[u8]) -> &[u8]
    ensures value { result.now ≡ spec.skip bytes.now }
    ensures shorter { length result.now ≤ length bytes.now }
{
    let mut rest = bytes;
    let mut open = false;
    while let Some((first, more)) = rest.split_first() {
        if open {
            open = *first != b'\n';
        } else if *first == b'#' {
            open = true;
        } else if !is_blank(*first) {
            return rest;
        }
        rest = more;
    }
    rest
}

/// The number of bytes of the word at the front; 0 where none is.
pub fn word_len(bytes: &[u8]) -> usize
    ensures { result ≡ spec.word_len bytes.now }
{
    bytes.iter().take_while(|b| is_word_byte(**b)).count()
}

/// The number of digits at the front.
pub fn digits_len(bytes: &[u8]) -> usize
    ensures { result ≡ length (take_while spec.is_digit bytes.now) }
{
    bytes.iter().take_while(|b| is_digit(**b)).count()
}

/// The number that the digits write, or the greatest of 64 bits where that is less.
pub fn capped_decimal(digits: &[u8]) -> u64
    ensures { result ≡ min (spec.decimal digits.now) (2 ^ 64 - 1) }
{
    let mut value = 0u64;
    for b in digits {
        value = value
            .saturating_mul(10)
            .saturating_add(b.saturating_sub(b'0') as u64);
    }
    value
}

/// How many bytes of a text there are behind its opening quote, with the closing one, and how many
/// bytes it stands for. None where it isn't closed or has a bad byte or a bad escape.
pub fn text_lens(bytes: &[u8]) -> Option<(usize, usize)>
    ensures value { scanning.HasLens bytes.now result }
    ensures within { IfSome result (λ r. r.0 ≤ length bytes.now) }
{
    let mut rest = bytes;
    let mut escape = false;
    let mut len = 0;
    let mut size = 0;
    while let Some((first, more)) = rest.split_first() {
        len += 1;
        if escape {
            if !is_quote_mark(*first) {
                return None;
            }
            escape = false;
            size += 1;
        } else if *first == b'"' {
            return Some((len, size));
        } else if *first == b'\\' {
            escape = true;
        } else if is_printable(*first) {
            size += 1;
        } else {
            return None;
        }
        rest = more;
    }
    None
}
