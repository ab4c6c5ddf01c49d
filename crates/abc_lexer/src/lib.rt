//! Reading the tokens of a text, and what they stand for.
#![tactic(auto)]

mod lexer;
mod meaning;
mod naming;
mod refusal;
mod run;
mod signs;
mod step;

pub use abc_cause::Cause;
pub use abc_text::{Fault, Token, TokenKind};
pub use lexer::{Found, Read, Scanned, read_token, scan, tokens};
pub use meaning::{named, number, spelling, text, unescaped};
pub use naming::{Names, names_of};
pub use refusal::TextRefusal;
pub use step::Item;
