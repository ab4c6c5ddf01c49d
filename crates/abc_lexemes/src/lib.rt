//! A text as lexemes: from its bytes to what its tokens stand for, in one pass, with its names numbered.
#![tactic(auto)]

mod lexed;
mod lexeme;
mod naming;

pub use lexed::{Lexed, read_lexemes};
pub use naming::new_names;
