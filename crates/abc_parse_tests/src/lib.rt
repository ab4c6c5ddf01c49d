//! Tests of the predicates at the fronts of texts, which the program doesn't read alone.
#![tactic(auto)]

#[cfg(test)]
mod shown;
#[cfg(test)]
mod tests;
