ghost use Rattle.std.specs.Prelude.{◌≡◌, ◌↔◌, slice_get, IsSomeAnd, IfOk, IsTrue};
ghost use Rattle.std.proofs.Props.{props};
ghost use Rattle.abc_term.specs.Standing.{process_of, definitions_of};
ghost use Rattle.abc_checks.specs.Measures.{IsTooWide, HasTooManyMoves, IsLeastSolution, width_of, breadth_of};
ghost use Rattle.abc_checks.specs.Tables.{measure_of, number_of};

use crate::limits::WIDEST;
use crate::measures::{parts_of, width};
use crate::places::Places;
use crate::sites::Fact;
use abc_term::Process;

/// A component has a width above 64. The widths are those of the definitions' bodies.
#[derive(Drop)]
pub struct TooWide<'p> {
    pub places: &'p Places<'p>,
    pub widths: &'p [usize],
    ghost least: { IsLeastSolution width_of (definitions_of places.now.program.now.definitions) (number_of places.now.program.now.definitions widths.now) } by { Prim.hlevel props },
}

impl TooWide<'_> {
    fn holds_of(&self, process: &Process) -> bool
        ensures { IsTrue result ↔ IsTooWide (definitions_of self.now.places.now.program.now.definitions) (process_of process.now) }
    {
        WIDEST < width(self.places, self.widths, process)
    }
}

impl Fact for TooWide<'_> {
    ghost of_definition = { λ f i. ⊥ };

    ghost of_component = { λ f i. IsSomeAnd (slice_get f.places.now.program.now.components i) (λ C. IsTooWide (definitions_of f.places.now.program.now.definitions) (process_of C.run)) };

    fn definition_has(&self, _at: usize) -> bool {
        false
    }

    fn component_has(&self, at: usize) -> bool {
        match self.places.program.components.get(at) {
            None => false,
            Some(component) => self.holds_of(&component.run),
        }
    }
}

/// A process or a part of one has a breadth above 2,048. The breadths are those of the definitions'
/// bodies.
#[derive(Drop)]
pub struct TooManyMoves<'p> {
    pub places: &'p Places<'p>,
    pub breadths: &'p [usize],
    ghost least: { IsLeastSolution breadth_of (definitions_of places.now.program.now.definitions) (number_of places.now.program.now.definitions breadths.now) } by { Prim.hlevel props },
}

impl TooManyMoves<'_> {
    fn holds_of(&self, process: &Process) -> bool
        ensures { IsTrue result ↔ HasTooManyMoves (definitions_of self.now.places.now.program.now.definitions) (process_of process.now) }
    {
        let (_, broad) = parts_of(self.places, self.breadths, process);
        broad
    }
}

impl Fact for TooManyMoves<'_> {
    ghost of_definition = { λ f i. IsSomeAnd (slice_get f.places.now.program.now.definitions i) (λ d. HasTooManyMoves (definitions_of f.places.now.program.now.definitions) (process_of d.body)) };

    ghost of_component = { λ f i. IsSomeAnd (slice_get f.places.now.program.now.components i) (λ C. HasTooManyMoves (definitions_of f.places.now.program.now.definitions) (process_of C.run)) };

    fn definition_has(&self, at: usize) -> bool {
        match self.places.program.definitions.get(at) {
            None => false,
            Some(definition) => self.holds_of(&definition.body),
        }
    }

    fn component_has(&self, at: usize) -> bool {
        match self.places.program.components.get(at) {
            None => false,
            Some(component) => self.holds_of(&component.run),
        }
    }
}
