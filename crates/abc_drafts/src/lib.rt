//! Programs that are made step by step, for tests and measurements: such as no text gives, and such
//! whose size is a number.
#![tactic(auto)]

mod draft;
mod mistake;

pub use draft::Draft;
pub use mistake::Mistake;
