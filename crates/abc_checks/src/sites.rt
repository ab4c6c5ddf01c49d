ghost use Rattle.std.specs.Prelude.{ℕ, ◌^◌, ◌<◌, ◌↔◌, length, IsTrue};
ghost use Rattle.abc_checks.specs.Sites.{AtSite, IsFirstSite, IsFirstNumber};

use crate::causes::Site;
use abc_term::Program;

/// A fact of definitions and of components by their numbers, that can be tested. The test takes no
/// memory: what it rests on is made before.
pub trait Fact {
    ghost of_definition: { Self → ℕ → Type 0 };

    ghost of_component: { Self → ℕ → Type 0 };

    fn definition_has(&self, at: usize) -> bool
        ensures { IsTrue result ↔ of_definition self.now at };

    fn component_has(&self, at: usize) -> bool
        ensures { IsTrue result ↔ of_component self.now at };
}

/// A fact of numbers.
trait Numbered {
    ghost holds: { Self → ℕ → Type 0 };

    fn holds_at(&self, at: usize) -> bool
        ensures { IsTrue result ↔ holds self.now at };
}

/// The fact of the definitions.
#[derive(Drop)]
struct OfDefinitions<'f, F> {
    fact: &'f F,
}

impl<F: Fact> Numbered for OfDefinitions<'_, F> {
    ghost holds = { λ n i. F.of_definition n.fact.now i };

    fn holds_at(&self, at: usize) -> bool {
        self.fact.definition_has(at)
    }
}

/// The fact of the components.
#[derive(Drop)]
struct OfComponents<'f, F> {
    fact: &'f F,
}

impl<F: Fact> Numbered for OfComponents<'_, F> {
    ghost holds = { λ n i. F.of_component n.fact.now i };

    fn holds_at(&self, at: usize) -> bool {
        self.fact.component_has(at)
    }
}

/// The first number below the count at which the fact holds.
fn first_number<N: Numbered>(fact: &N, count: usize) -> Option<usize>
    ensures { IsFirstNumber (N.holds fact.now) count result }
{
    for i in 0..count {
        if fact.holds_at(i) {
            return Some(i);
        }
    }
    None
}

/// The first site at which the fact holds.
pub fn first_site<F: Fact>(fact: &F, program: &Program) -> Option<Site>
    requires definitions { length program.now.definitions < 2 ^ 32 }
    requires components { length program.now.components < 2 ^ 32 }
    ensures { IsFirstSite (AtSite (length program.now.definitions) (length program.now.components) (F.of_definition fact.now) (F.of_component fact.now)) result }
{
    let definitions = OfDefinitions { fact: &*fact };
    if let Some(i) = first_number(&definitions, program.definitions.len()) {
        return Some(Site::Definition(i as u32));
    }
    let components = OfComponents { fact: &*fact };
    if let Some(i) = first_number(&components, program.components.len()) {
        return Some(Site::Component(i as u32));
    }
    None
}
