//! Words and their numbers.
ghost use Rattle.std.specs.Prelude.{◌≡◌, ◌+◌, ◌<◌, ◌^◌, map, length, IfOk, All};
ghost use Rattle.abc_text.specs.Meanings.{AreDifferent};
ghost use Rattle.abc_text.specs.Spelling.{IsWordSpelling};
ghost use Rattle.abc_trace_order.specs.Reading.{AreNumbered};

use abc_lexer::Names;
use abc_pred::Name;
use abc_value::{List, NoMemory, ShortText, Value};
use std::alloc::Global;

/// Those that heard, with the numbers of their words. A word that has none gets the next.
pub fn number_heard<'t>(
    alloc: Global,
    heard: &[(&'t [u8], u32)],
    names: &mut Names<'t>,
) -> Result<List<(Name, u32)>, NoMemory>
    requires { length names.old + length heard.now < 2 ^ 32 }
    ensures { IfOk result (λ h. AreNumbered names.old (map (λ e. (e.0.now, e.1)) heard.now) names.new h) }
{
    let mut named = List::new(alloc);
    for (word, place) in heard {
        let number = names.number(*word)?;
        named.push((Name(number), *place))?;
    }
    Ok(named)
}

/// Attributes with their values, and the numbers of their words.
pub fn number_entries<'t>(
    alloc: Global,
    entries: List<(&'t [u8], Value)>,
    names: &mut Names<'t>,
) -> Result<List<(Name, Value)>, NoMemory>
    requires { length names.old + length entries < 2 ^ 32 }
    ensures { IfOk result (λ es. AreNumbered names.old (map (λ e. (e.0.now, e.1)) entries.entry) names.new es) }
{
    let mut named = List::new(alloc);
    for (word, value) in entries.into_vec() {
        let number = names.number(word)?;
        named.push((Name(number), value))?;
    }
    Ok(named)
}

/// A word as a text. No word is longer than a text.
fn word_text(word: &[u8]) -> ShortText
    requires { IsWordSpelling word.now }
    ensures { result ≡ word.now }
{
    ShortText::from_bytes(word).unwrap()
}

/// The words as texts.
pub fn texts(alloc: Global, words: &[&[u8]]) -> Result<List<ShortText>, NoMemory>
    requires { All (λ w. IsWordSpelling w.now) words.now }
    ensures { IfOk result (λ ts. ts ≡ map (λ w. w.now) words.now) }
{
    let mut made = List::new(alloc);
    for word in words {
        made.push(word_text(*word))?;
    }
    Ok(made)
}
