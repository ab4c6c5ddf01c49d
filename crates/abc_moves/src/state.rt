use crate::tree::Tree;
use abc_pred::Env;

/// What of a component changes as it moves.
#[derive(Drop)]
pub struct State<'p> {
    pub tree: Tree<'p>,
    pub env: Env,
    /// The number of enabled outputs. Guards read the environment, so it is counted again after each move.
    pub outputs: u32,
}
