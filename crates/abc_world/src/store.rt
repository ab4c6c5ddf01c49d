use std::marker::{Model, PhantomData};

/// What a node that stores messages keeps beside its clock and its log. Contracts alone speak of
/// it; no value of this type is made.
pub struct NodeStore<L> {
    label: PhantomData<L>,
}

impl<L> Model for NodeStore<L> {
    ghost use Rattle.abc_network.specs.Stores.{Store, blank_store};

    ghost Value = { Store L };

    ghost view = { λ s. blank_store };
}
