ghost use Rattle.std.specs.Prelude.{◌≡◌, ◌≤◌, ℕ, [], take, length, IsTrue};
ghost use Rattle.abc_term.specs.Standing.{process_of, definitions_of};
ghost use Rattle.abc_checks.specs.Variables.{process_open};
ghost use Rattle.abc_checks.specs.Facts.{Has, definition_doubles, component_doubles, calls_unknown};

use crate::names::repeats;
use crate::parts::repeats_variable;
use crate::places::Places;
use crate::sites::Fact;
use crate::unknown::calls_unknown;
use crate::variables::{Scope, process_open};
use abc_term::{Component, Definition, Program};

fn definition_doubles(places: &Places<'_>, at: usize, definition: &Definition) -> bool
    requires { at ≤ length places.now.program.now.definitions }
    ensures { result ≡ definition_doubles (take at places.now.program.now.definitions) definition.now }
{
    places.defines_before(at, definition.name) || repeats_variable(&definition.body)
}

fn component_doubles(places: &Places<'_>, at: usize, component: &Component) -> bool
    requires { at ≤ length places.now.program.now.components }
    ensures { result ≡ component_doubles (take at places.now.program.now.components) component.now }
{
    places.has_component_before(at, component.name)
        || repeats(component.initial.as_slice())
        || repeats(component.show.as_slice())
        || repeats_variable(&component.run)
}

/// A name stands twice.
#[derive(Drop)]
pub struct DoubleName<'p>(pub &'p Places<'p>);

impl Fact for DoubleName<'_> {
    ghost of_definition = { λ f i. Has (definition_doubles (take i f.0.now.program.now.definitions)) f.0.now.program.now.definitions i };

    ghost of_component = { λ f i. Has (component_doubles (take i f.0.now.program.now.components)) f.0.now.program.now.components i };

    fn definition_has(&self, at: usize) -> bool {
        let definitions = self.0.program.definitions.as_slice();
        match definitions.get(at) {
            None => false,
            Some(definition) => definition_doubles(self.0, at, definition),
        }
    }

    fn component_has(&self, at: usize) -> bool {
        let components = self.0.program.components.as_slice();
        match components.get(at) {
            None => false,
            Some(component) => component_doubles(self.0, at, component),
        }
    }
}

/// A name is called that no definition has.
#[derive(Drop)]
pub struct UnknownName<'p>(pub &'p Places<'p>);

impl Fact for UnknownName<'_> {
    ghost of_definition = { λ f. Has (λ d. calls_unknown (definitions_of f.0.now.program.now.definitions) (process_of d.body)) f.0.now.program.now.definitions };

    ghost of_component = { λ f. Has (λ C. calls_unknown (definitions_of f.0.now.program.now.definitions) (process_of C.run)) f.0.now.program.now.components };

    fn definition_has(&self, at: usize) -> bool {
        match self.0.program.definitions.get(at) {
            None => false,
            Some(definition) => calls_unknown(self.0, &definition.body),
        }
    }

    fn component_has(&self, at: usize) -> bool {
        match self.0.program.components.get(at) {
            None => false,
            Some(component) => calls_unknown(self.0, &component.run),
        }
    }
}

/// No enclosing input binds a variable.
#[derive(Drop)]
pub struct OpenVariable<'p>(pub &'p Program);

impl Fact for OpenVariable<'_> {
    ghost of_definition = { λ f. Has (λ d. process_open [] (process_of d.body)) f.0.now.definitions };

    ghost of_component = { λ f. Has (λ C. process_open [] (process_of C.run)) f.0.now.components };

    fn definition_has(&self, at: usize) -> bool {
        match self.0.definitions.get(at) {
            None => false,
            Some(definition) => process_open(&Scope::Outside, &definition.body),
        }
    }

    fn component_has(&self, at: usize) -> bool {
        match self.0.components.get(at) {
            None => false,
            Some(component) => process_open(&Scope::Outside, &component.run),
        }
    }
}
