//! What a counter is made with, and what its seats know.
use std::collections::LinkedList;

/// What a counter is made with: the greatest number, and how many seats.
#[derive(Clone, Copy)]
pub struct CounterTerms {
    pub limit: u32,
    pub seats: u32,
}

/// What a seat knows: the counter's limit, the seat numbers that it stands for, the numbers that it
/// drew, in order, and how often it was closed. It stands for the proofs: no value of it is made.
pub struct SeatView {
    pub limit: u32,
    pub seats: LinkedList<u32>,
    pub drawn: LinkedList<u32>,
    pub closings: u64,
}
