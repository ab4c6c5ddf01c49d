//! A value with several owners.
ghost use Rattle.std.specs.Prelude.{◌≡◌, IfOk};

use crate::memory::NoMemory;
use std::alloc::Global;
use std::marker::Model;
use std::sync::Arc;

/// One of the owners of a value. Contracts see the value alone, so owners of equal values are equal.
///
/// The value goes with its last owner.
#[derive(Drop)]
pub struct Owner<L> {
    shared: Arc<L, Global>,
}

impl<L> Model for Owner<L> {
    ghost use Rattle.std.specs.Arc.{arc_value};

    ghost Value = { L };

    ghost view = { λ o. arc_value o.shared };
}

impl<L> Owner<L> {
    /// The first owner of this value.
    pub fn new(alloc: Global, value: L) -> Result<Owner<L>, NoMemory>
    where
        L: Drop,
        ensures { IfOk result (λ o. o ≡ value) }
    {
        let shared = Arc::new(alloc, value)?;
        Ok(Owner { shared })
    }

    /// One more owner of the same value, which is not copied.
    pub fn copy(&self) -> Result<Owner<L>, NoMemory>
        ensures { IfOk result (λ o. o ≡ self.now) }
    {
        let shared = Arc::try_clone(&self.shared)?;
        Ok(Owner { shared })
    }

    /// The value.
    pub fn get(&self) -> &L
        ensures { result.now ≡ self.now }
    {
        &self.shared
    }
}
