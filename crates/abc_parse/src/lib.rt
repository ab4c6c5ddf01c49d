//! Reading the text of a program: from its bytes to its terms, or to the place and the cause of the
//! first thing wrong with it.
#![tactic(auto)]

mod front;
mod items;
mod parsing;
mod places;
mod program;
mod reading;
mod whole;
mod words;

pub use abc_lexer::{
    Cause, Fault, Names, Scanned, TextRefusal, Token, TokenKind, named, names_of, number, scan,
    spelling, text, tokens,
};
pub use front::{Front, front_of};
pub use parsing::{Parsed, Places, parse};
pub use whole::parse_pred;
