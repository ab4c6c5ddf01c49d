//! The checks of a program: what a program must be free of before it runs.
#![tactic(auto)]

mod calls;
mod causes;
mod checking;
mod counts;
mod cycles;
mod facts;
mod laws;
mod levels;
mod limits;
mod measures;
mod names;
mod order;
mod parts;
mod places;
mod search;
mod sites;
mod unknown;
mod variables;
mod walk;

pub use abc_cause::CheckCause;
pub use causes::{CheckRefusal, Site};
pub use checking::check;
pub use laws::{
    calls_have_bodies, checked_calls_end, limits_are_these, widths_are_small, worked_counts,
};
pub use limits::{BROADEST, MOST_COMPONENTS, WIDEST};

#[cfg(test)]
mod tests;
