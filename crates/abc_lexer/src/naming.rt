//! The numbers of names.
ghost use Rattle.std.specs.Prelude.{◌≡◌, ◌≤◌, ◌<◌, ◌+◌, ◌^◌, [], map, length, IfOk, OnErr, All};
ghost use Rattle.abc_text.specs.Meanings as spec;

use crate::meaning::named;
use abc_text::Token;
use abc_value::NoMemory;
use indexmap::IndexSet;
use std::alloc::Global;
use std::marker::Model;

/// The words that have numbers, each at its number: 0 for the first that was met.
#[derive(Drop)]
pub struct Names<'t> {
    words: IndexSet<&'t [u8]>,
}

impl<'t> Model for Names<'t> {
    ghost use Rattle.std.specs.Prelude.{List, ℕ, map};

    ghost Value = { List (List ℕ) };

    ghost view = { λ n. map (λ w. w.now) n.words.keys };
}

impl<'t> Names<'t> {
    /// No word has a number yet.
    pub fn new(alloc: Global) -> Names<'t>
        ensures { result ≡ [] }
    {
        Names {
            words: IndexSet::new(alloc),
        }
    }

    /// The words, each at its number.
    pub fn words(&self) -> &[&'t [u8]]
        ensures { map (λ w. w.now) result.now ≡ self.now }
    {
        self.words.as_slice()
    }

    /// The number of a word. One that has none gets the next; after NoMemory all is as before.
    pub fn number(&mut self, word: &'t [u8]) -> Result<u32, NoMemory>
        requires { length self.old < 2 ^ 32 }
        ensures names { IfOk result (λ n. self.new ≡ spec.with_word self.old word.now) }
        ensures number { IfOk result (λ n. n ≡ spec.number_in self.old word.now) }
        ensures err { OnErr result (self.new ≡ self.old) }
    {
        let (index, _) = self.words.insert_full(word)?;
        Ok(index as u32)
    }
}

/// The words that the tokens name, each once, in the order in which they are first met.
pub fn names_of<'t>(alloc: Global, bytes: &'t [u8], tokens: &[Token]) -> Result<Names<'t>, NoMemory>
    requires stands { All (spec.StandsIn bytes.now) tokens.now }
    requires few { length tokens.now < 2 ^ 32 }
    ensures { IfOk result (λ n. n ≡ spec.names_of bytes.now tokens.now) }
{
    let mut names = Names::new(alloc);
    for token in tokens {
        if let Some(word) = named(bytes, *token) {
            names.number(word)?;
        }
    }
    Ok(names)
}
