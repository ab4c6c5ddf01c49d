//! The concrete text of a program, as definitions: what its tokens are.
//!
//! The reader of texts and the printer both stand on this crate, so that neither stands on the other.
//! The definitions are in `specs/`; the types here are what they speak of.
#![tactic(auto)]

mod laws;
mod lexical;
mod limits;
mod words;

pub use abc_cause::Cause;
pub use laws::{
    faults_are_lexical, named_have_numbers, names_stay, numbers_fit, one_reading, spelled_is_read,
    spellings, tokens_stand, words_are_spelled, worked_limits, worked_tokens, worked_words,
};
pub use lexical::{Before, Fault, Next, Token, TokenKind};
pub use limits::{MOST_NAME, MOST_NUMBER, token_limits};
pub use words::{KEYWORDS, Keyword, MARKS, Mark, keyword_at, keyword_text, mark_at, mark_text};
