//! The reading of texts as definitions: plain readers on lists of lexemes, proved exact against the grammar.
#![tactic(auto)]

mod laws;

pub use laws::{
    exprs_are_read, literals_are_read, operands_are_read, preds_are_read, programs_are_read,
};
