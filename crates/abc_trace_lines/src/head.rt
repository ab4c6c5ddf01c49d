//! The first line of a trace.
ghost use Rattle.std.specs.Prelude.{ℕ, List, MatchBool, MatchOption};
ghost use Rattle.abc_shape.specs.declared.shape.Shape.{Shape};
ghost use Rattle.abc_trace.specs.declared.trace.Head.{Head};
ghost use Rattle.abc_trace.specs.declared.trace.Head.TheVariants.{Solo, Net};
ghost use Rattle.abc_trace.specs.WellFormed.{HeadIsWellFormed};
ghost use Rattle.abc_trace_lines.specs.Plain.{First};
ghost use Rattle.abc_trace_lines.specs.Reading.{IsLine, IsNetNumbers, IsShapeFront, IsSoloNumbers};

use crate::counts::two_numbers;
use crate::fronts::behind;
use crate::numbers::number_before;
use abc_shape::Shape;
use abc_trace::{Head, MOST_LIMIT, MOST_NODES, MOST_PICK};

/// `abc-trace 1 solo LIMIT PICK`, or `abc-trace 1 SHAPE LIMIT NODES PICK`.
pub fn read_head(line: &[u8]) -> Option<Head>
    ensures { MatchOption result ((head : Head) → ¬ (IsLine line.now (First head)))
        (λ head. IsLine line.now (First head)) }
{
    let Some(command) = behind(line, b"abc-trace 1 ") else {
        return None;
    };
    if let Some(numbers) = behind(command, b"solo ") {
        return match solo_numbers(numbers) {
            Some((limit, pick)) => Some(Head::Solo { limit, pick }),
            None => None,
        };
    }
    let Some((shape, numbers)) = shape_front(command) else {
        return None;
    };
    match net_numbers(shape, numbers) {
        Some((limit, nodes, pick)) => Some(Head::Net {
            shape,
            limit,
            nodes,
            pick,
        }),
        None => None,
    }
}

/// The limit and the pick of a run on one thread.
fn solo_numbers(bytes: &[u8]) -> Option<(u32, u64)>
    ensures { MatchOption result ((limit pick : ℕ) → ¬ (IsSoloNumbers bytes.now limit pick))
        (λ r. IsSoloNumbers bytes.now r.0 r.1) }
{
    let Some((limit, pick)) = two_numbers(bytes) else {
        return None;
    };
    if are_solo(limit, pick) {
        Some((limit as u32, pick))
    } else {
        None
    }
}

/// Whether they are the limit and the pick of a run.
fn are_solo(limit: u64, pick: u64) -> bool
    ensures { MatchBool result (HeadIsWellFormed (Solo limit pick))
        (¬ (HeadIsWellFormed (Solo limit pick))) }
{
    1 <= limit && limit <= MOST_LIMIT && pick <= MOST_PICK
}

/// The limit, the nodes and the pick of a network.
fn net_numbers(shape: Shape, bytes: &[u8]) -> Option<(u32, u32, u64)>
    ensures { MatchOption result
        ((limit nodes pick : ℕ) → ¬ (IsNetNumbers shape bytes.now limit nodes pick))
        (λ r. IsNetNumbers shape bytes.now r.0 r.1 r.2) }
{
    let Some((limit, more)) = number_before(bytes, b' ') else {
        return None;
    };
    let Some((nodes, pick)) = two_numbers(more) else {
        return None;
    };
    if are_net(shape, limit, nodes, pick) {
        Some((limit as u32, nodes as u32, pick))
    } else {
        None
    }
}

/// Whether they are the limit, the nodes and the pick of a network.
fn are_net(shape: Shape, limit: u64, nodes: u64, pick: u64) -> bool
    ensures { MatchBool result (HeadIsWellFormed (Net shape limit nodes pick))
        (¬ (HeadIsWellFormed (Net shape limit nodes pick))) }
{
    are_solo(limit, pick) && 1 <= nodes && nodes <= MOST_NODES
}

/// The shape whose word stands at the front before a space, and what follows the space.
fn shape_front(bytes: &[u8]) -> Option<(Shape, &[u8])>
    ensures { MatchOption result
        ((shape : Shape) (more : List ℕ) → ¬ (IsShapeFront bytes.now shape more))
        (λ r. IsShapeFront bytes.now r.0 r.1.now) }
{
    if let Some(more) = behind(bytes, b"cluster ") {
        return Some((Shape::Cluster, more));
    }
    if let Some(more) = behind(bytes, b"ring ") {
        return Some((Shape::Ring, more));
    }
    match behind(bytes, b"tree ") {
        Some(more) => Some((Shape::Tree, more)),
        None => None,
    }
}
