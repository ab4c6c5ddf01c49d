//! Laws of the canonical text, lexeme by lexeme: what is printed of a term is of the grammar with that
//! term, and has the names of every text of it, in their order.
#![tactic(auto)]

mod laws;

pub use laws::{names_are_kept, outputs_stand, prints_are_terms, programs_have_values};
