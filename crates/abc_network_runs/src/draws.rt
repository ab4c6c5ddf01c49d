//! Which numbers a run draws.
ghost use Rattle.abc_network_runs.specs.Drawn.{NumbersAreDrawnOnce};

use abc_body::Body;

/// In every run each number is drawn at most once, and it is one from 1 to the limit.
pub fn numbers_are_drawn_once<B: Body>()
    ensures { NumbersAreDrawnOnce B.meaning }
{}
