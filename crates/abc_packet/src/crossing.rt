//! What may go to another thread and be shared. Each function here only has to be well typed.

use crate::choice::Choice;
use crate::log::Log;
use crate::stamped::Stamped;

fn crosses_threads<T: Send + Sync>() {}

/// Choices may.
fn choices_cross_threads() {
    crosses_threads::<Choice>();
}

/// Stamped packets and logs may, where labels may.
fn packets_cross_threads<L: Send + Sync>() {
    crosses_threads::<Stamped<L>>();
    crosses_threads::<Log<L>>();
}
