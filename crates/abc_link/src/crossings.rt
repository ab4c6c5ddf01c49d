//! Each end may go to another thread with the items that it holds.

use crate::ends::{LinkIn, LinkOut};

fn crosses_threads<T: Send>() {}

fn senders_cross_threads<T: Send + Drop>() {
    crosses_threads::<LinkOut<T>>();
}

fn receivers_cross_threads<T: Send + Drop>() {
    crosses_threads::<LinkIn<T>>();
}
