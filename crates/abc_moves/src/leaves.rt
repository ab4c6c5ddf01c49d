ghost use Rattle.std.specs.Prelude.{◌≡◌, ◌+◌, ◌<◌, ◌^◌, IfOk};
ghost use Rattle.abc_moves.specs.Walks.{ComesTo, OnFound};
ghost use Rattle.abc_moves.specs.Arounds.{outs_here, ins_here, IsMeantHere};
ghost use Rattle.abc_moves.specs.Labels.{label_of};
ghost use Rattle.abc_moves.specs.Sites.{SaysInTree, TakesInTree};
ghost use Rattle.abc_moves.specs.Trees.{process_in, process_with, leaves_in};

use crate::around::Around;
use crate::hearing::{Taking, input_at};
use crate::label::Label;
use crate::speaking::{Saying, output_at};
use crate::tree::Tree;
use crate::walk::{Walk, inputs, is_meant, outputs};
use abc_value::NoMemory;
use std::alloc::Global;

/// The number of outputs of all leaves.
pub fn outputs_of(at: &Around<'_, '_>, depth: usize, tree: &Tree<'_>) -> u32
    requires { outs_here at.now depth (process_in tree.now) < 2 ^ 32 }
    ensures { result ≡ outs_here at.now depth (process_in tree.now) }
{
    match tree {
        Tree::Leaf(p, scope) => outputs(at, depth, scope, p),
        Tree::Par(sides) => outputs_of(at, depth, &sides.left)
            + outputs_of(at, depth, &sides.right),
    }
}

/// The number of inputs of all leaves that take a message which is meant for the component.
fn inputs_meant(at: &Around<'_, '_>, label: &Label, depth: usize, tree: &Tree<'_>) -> u32
    requires meant { IsMeantHere at.now (label_of label.now) }
    requires fits { ins_here at.now (label_of label.now) depth (process_in tree.now) < 2 ^ 32 }
    ensures { result ≡ ins_here at.now (label_of label.now) depth (process_in tree.now) }
{
    match tree {
        Tree::Leaf(p, scope) => inputs(at, label, depth, scope, p),
        Tree::Par(sides) => inputs_meant(at, label, depth, &sides.left)
            + inputs_meant(at, label, depth, &sides.right),
    }
}

/// The number of inputs of all leaves that take the message: none where it is not meant for the component.
pub fn inputs_of(at: &Around<'_, '_>, label: &Label, depth: usize, tree: &Tree<'_>) -> u32
    requires { ins_here at.now (label_of label.now) depth (process_in tree.now) < 2 ^ 32 }
    ensures { result ≡ ins_here at.now (label_of label.now) depth (process_in tree.now) }
{
    if is_meant(at, label) {
        inputs_meant(at, label, depth, tree)
    } else {
        0
    }
}

/// The number of leaves.
fn leaves(tree: &Tree<'_>) -> u32
    requires { leaves_in tree.now < 2 ^ 32 }
    ensures { result ≡ leaves_in tree.now }
{
    match tree {
        Tree::Leaf(_, _) => 1,
        Tree::Par(sides) => leaves(&sides.left) + leaves(&sides.right),
    }
}

/// An action that a walk over the leaves has found, with the number of its leaf.
#[derive(Drop)]
pub struct InLeaf<S> {
    pub leaf: u32,
    pub site: S,
}

impl<S: Drop> InLeaf<S> {
    /// The same action, where so many leaves stand before.
    fn behind(self, before: u32) -> InLeaf<S>
        requires { before + self.leaf < 2 ^ 32 }
        ensures { result ≡ record { leaf = before + self.leaf; site = self.site } }
    {
        let InLeaf { leaf, site } = self;
        InLeaf {
            leaf: before + leaf,
            site,
        }
    }
}

/// A walk over the leaves for the output at a place.
pub fn speak_at<'a, 'p>(
    alloc: Global,
    at: &'a Around<'_, 'p>,
    depth: usize,
    tree: &'a Tree<'p>,
    place: u32,
) -> Result<Walk<InLeaf<Saying<'a, 'p>>>, NoMemory>
    requires { leaves_in tree.now < 2 ^ 32 }
    ensures ok { IfOk result (ComesTo
        (λ s. SaysInTree at.now depth tree.now place s.leaf s.site.value) place (outs_here at.now depth (process_in tree.now))) }
    ensures leaf { IfOk result (OnFound (λ s. s.leaf < leaves_in tree.now)) }
{
    match tree {
        Tree::Leaf(p, scope) => match output_at(alloc, at, depth, scope, p, place)? {
            Walk::Found(site) => Ok(Walk::Found(InLeaf { leaf: 0, site })),
            Walk::Passed(n) => Ok(Walk::Passed(n)),
        },
        Tree::Par(sides) => match speak_at(alloc, at, depth, &sides.left, place)? {
            Walk::Found(s) => Ok(Walk::Found(s)),
            Walk::Passed(n) => match speak_at(alloc, at, depth, &sides.right, place - n)? {
                Walk::Found(s) => Ok(Walk::Found(s.behind(leaves(&sides.left)))),
                Walk::Passed(m) => Ok(Walk::Passed(n + m)),
            },
        },
    }
}

/// A walk over the leaves for the input at a place, among those that take a message which is meant for the
/// component.
pub fn hear_at<'a, 'p>(
    alloc: Global,
    at: &'a Around<'_, 'p>,
    label: &Label,
    depth: usize,
    tree: &'a Tree<'p>,
    place: u32,
) -> Result<Walk<InLeaf<Taking<'a, 'p>>>, NoMemory>
    requires meant { IsMeantHere at.now (label_of label.now) }
    requires few { leaves_in tree.now < 2 ^ 32 }
    ensures ok { IfOk result (ComesTo
        (λ s. TakesInTree at.now (label_of label.now) depth tree.now place s.leaf s.site.value)
        place (ins_here at.now (label_of label.now) depth (process_in tree.now))) }
    ensures leaf { IfOk result (OnFound (λ s. s.leaf < leaves_in tree.now)) }
{
    match tree {
        Tree::Leaf(p, scope) => match input_at(alloc, at, label, depth, scope, p, place)? {
            Walk::Found(site) => Ok(Walk::Found(InLeaf { leaf: 0, site })),
            Walk::Passed(n) => Ok(Walk::Passed(n)),
        },
        Tree::Par(sides) => match hear_at(alloc, at, label, depth, &sides.left, place)? {
            Walk::Found(s) => Ok(Walk::Found(s)),
            Walk::Passed(n) => {
                match hear_at(alloc, at, label, depth, &sides.right, place - n)? {
                    Walk::Found(s) => Ok(Walk::Found(s.behind(leaves(&sides.left)))),
                    Walk::Passed(m) => Ok(Walk::Passed(n + m)),
                }
            }
        },
    }
}

/// The leaf of this number becomes another tree. It takes no memory.
pub fn put_leaf<'p>(tree: &mut Tree<'p>, leaf: u32, made: Tree<'p>)
    requires { leaves_in tree.old < 2 ^ 32 }
    ensures { process_in tree.new ≡ process_with tree.old leaf (process_in made.entry) }
{
    match tree {
        Tree::Leaf(_, _) => *tree = made,
        Tree::Par(sides) => {
            let left = leaves(&sides.left);
            if leaf < left {
                put_leaf(&mut sides.left, leaf, made);
            } else {
                put_leaf(&mut sides.right, leaf - left, made);
            }
        }
    }
}
