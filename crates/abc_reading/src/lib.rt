//! Reading as plain functions on lists of tokens, for any tokens, any causes of refusal and any grammar.
//!
//! The crate has definitions and lemmas alone: what a reader gives, how readers are put together, and
//! what each way to put them together keeps of the laws that a reader owes its grammar.
#![tactic(auto)]
