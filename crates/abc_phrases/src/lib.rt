//! The parser of what processes are made of: literals, operands, expressions and predicates.
#![tactic(auto)]

mod expr;
mod literal;
mod operand;
mod parser;
mod pred;

pub use parser::{Left, Parser, Part, Stop};
