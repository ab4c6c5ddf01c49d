ghost use Rattle.std.specs.Prelude.{◌≡◌, IfOk};

use abc_value::{NoMemory, ShortText};
use std::alloc::Global;
use std::marker::Model;

/// A text held on the heap, so that whatever holds it stays small.
#[derive(Debug, Drop)]
pub struct BoxedText {
    held: Box<ShortText>,
}

impl Model for BoxedText {
    ghost use Rattle.std.specs.Prelude.{List, ℕ};

    ghost Value = { List ℕ };

    ghost view = { λ t. t.held.value };
}

impl BoxedText {
    /// The same text on the heap.
    pub fn new(alloc: Global, text: ShortText) -> Result<BoxedText, NoMemory>
        ensures { IfOk result (λ t. t ≡ text) }
    {
        let held = Box::new(alloc, text)?;
        Ok(BoxedText { held })
    }

    /// The text.
    pub fn text(&self) -> &ShortText
        ensures { result.now ≡ self.now }
    {
        &self.held
    }
}
