use crate::tree::Tree;
use abc_pred::Env;

/// What a move of a component makes: the leaf that moves is told by its number, and what it becomes stands
/// ready to be put in its place.
#[derive(Drop)]
pub struct Move<'p> {
    pub(crate) leaf: u32,
    /// The environment after the updates; none where nothing is updated.
    pub(crate) env: Option<Env>,
    /// What the leaf becomes.
    pub(crate) tree: Tree<'p>,
}
