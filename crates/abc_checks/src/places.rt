ghost use Rattle.std.specs.Prelude.{◌≡◌, ℕ, ◌<◌, ◌≤◌, length, map, take, IfOk, vec_len, slice_index};
ghost use Rattle.abc_pred.specs.Maps.{lists};
ghost use Rattle.abc_term.specs.Standing.{definitions_of};
ghost use Rattle.abc_term.specs.Guarded.{defines};
ghost use Rattle.abc_checks.specs.Parts.{place_of};
ghost use Rattle.abc_checks.specs.Firsts.{first_place};

use crate::names::names_of;
use abc_pred::Name;
use abc_term::Program;
use abc_value::NoMemory;
use std::alloc::Global;

/// Names, with the place of the first of each among them.
#[derive(Drop)]
struct Firsts {
    names: Vec<Name>,
    numbers: Vec<usize>,
    ghost right: { (k : ℕ) → k < vec_len numbers →
        slice_index numbers.items k ≡ first_place names.items (record { 0 = k }) },
}

/// The place of the first of the name, looked for from the front.
fn place_from_front(names: &[Name], name: Name) -> usize
    ensures { result ≡ first_place names.now name }
{
    let mut i = 0;
    while i < names.len() {
        if names[i] == name {
            return i;
        }
        i += 1;
    }
    i
}

/// The place of the first of each name below `count`.
fn numbers(alloc: Global, names: &[Name], count: usize) -> Result<Vec<usize>, NoMemory>
    ensures len { IfOk result (λ v. vec_len v ≡ count) }
    ensures right { IfOk result (λ v. (k : ℕ) → k < count → slice_index v.items k ≡ first_place names.now (record { 0 = k })) }
{
    let mut numbers = vec![in alloc; names.len(); count]?;
    let mut i = names.len();
    while i > 0 {
        i -= 1;
        let name = names[i].0 as usize;
        if name < numbers.len() {
            numbers[name] = i;
        }
    }
    Ok(numbers)
}

impl Firsts {
    /// The place of a name below `count` is found at once.
    fn of(alloc: Global, names: Vec<Name>, count: usize) -> Result<Firsts, NoMemory>
        ensures { IfOk result (λ f. f.names.items ≡ names.items) }
    {
        let numbers = numbers(alloc, &names, count)?;
        Ok(Firsts { names, numbers })
    }

    /// The place of the first of the name; the number of all names where it isn't one of them.
    fn place(&self, name: Name) -> usize
        ensures { result ≡ first_place self.now.names.items name }
    {
        match self.numbers.get(name.0 as usize) {
            Some(place) => *place,
            None => place_from_front(&self.names, name),
        }
    }
}

/// The definitions and components of a program with, for each name, the place of its first one among them.
#[derive(Drop)]
pub struct Places<'p> {
    pub program: &'p Program,
    definitions: Firsts,
    components: Firsts,
    ghost of_definitions: { definitions.names.items ≡ map (λ d. d.name) program.now.definitions },
    ghost of_components: { components.names.items ≡ map (λ C. C.name) program.now.components },
}

impl<'p> Places<'p> {
    /// The places of the program's definitions and components. That of a name of its list is found at once.
    pub fn of(alloc: Global, program: &'p Program) -> Result<Places<'p>, NoMemory>
        ensures { IfOk result (λ p. p.program.now ≡ program.entry.now) }
    {
        let defined = names_of(alloc, program.definitions.as_slice())?;
        let definitions = Firsts::of(alloc, defined, program.names.len())?;
        let named = names_of(alloc, program.components.as_slice())?;
        let components = Firsts::of(alloc, named, program.names.len())?;
        Ok(Places {
            program,
            definitions,
            components,
        })
    }

    /// The number of the first definition of the name; that of all definitions where none has it.
    pub fn place(&self, name: Name) -> usize
        ensures { result ≡ place_of (definitions_of self.now.program.now.definitions) name }
    {
        self.definitions.place(name)
    }

    /// Whether a definition has the name.
    #[tactic(auto, using(crate::proofs::NamesMet::defines_by_place))]
    pub fn defines(&self, name: Name) -> bool
        ensures { result ≡ defines (definitions_of self.now.program.now.definitions) name }
    {
        self.place(name) < self.program.definitions.len()
    }

    /// Whether one of the definitions before the number has the name.
    pub fn defines_before(&self, at: usize, name: Name) -> bool
        requires { at ≤ length self.now.program.now.definitions }
        ensures { result ≡ lists (map (λ d. d.name) (take at self.now.program.now.definitions)) name }
    {
        self.definitions.place(name) < at
    }

    /// Whether one of the components before the number has the name.
    pub fn has_component_before(&self, at: usize, name: Name) -> bool
        requires { at ≤ length self.now.program.now.components }
        ensures { result ≡ lists (map (λ C. C.name) (take at self.now.program.now.components)) name }
    {
        self.components.place(name) < at
    }
}
