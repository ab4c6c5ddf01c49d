//! The grammar of programs, as definitions: which lists of tokens are which program, within which
//! limits, and which refusal every other text has.
//!
//! The definitions are in `specs/`, and docs/TEXT.md goes through them. The types here are what the
//! tokens stand for: the parser reads the same type that the grammar speaks of.
#![tactic(auto)]

mod boxed_text;
mod examples;
mod laws;
mod lexemes;
mod limits;

pub use abc_text::{Keyword, Mark};
pub use boxed_text::BoxedText;
pub use examples::{
    what_is_no_term, worked_lexemes, worked_limits, worked_orders, worked_refusals, worked_terms,
    worked_texts,
};
pub use laws::{
    causes_in_order, fronts_are_one, lexemes_agree, one_term, refusals_are_one,
    signs_are_of_literals, signs_are_one, sizes_count_literals, terms_balance, texts_are_one,
};
pub use lexemes::Lexeme;
pub use limits::{MOST_OPEN, MOST_PARTS, MOST_TOKENS, MOST_WRITTEN, text_limits};
