ghost use Rattle.std.specs.Prelude.{◌≡◌, map, IfOk};
ghost use Rattle.abc_pred.specs.Maps.{lists};
ghost use Rattle.abc_pred.specs.declared.names.Name.{Name};
ghost use Rattle.abc_checks.specs.Parts.{repeats};

use abc_pred::Name;
use abc_term::{Component, Definition};
use abc_value::{NoMemory, Value};
use std::alloc::Global;

/// What has a name.
pub trait Named {
    ghost name_of: { Self → Name };

    fn name(&self) -> Name
        ensures { result ≡ name_of self.now };
}

impl Named for Name {
    ghost name_of = { λ n. n };

    fn name(&self) -> Name {
        *self
    }
}

impl Named for (Name, Value) {
    ghost name_of = { λ a. a.0 };

    fn name(&self) -> Name {
        self.0
    }
}

impl Named for Definition {
    ghost name_of = { λ d. d.name };

    fn name(&self) -> Name {
        self.name
    }
}

impl Named for Component {
    ghost name_of = { λ C. C.name };

    fn name(&self) -> Name {
        self.name
    }
}

/// The names of the items.
pub fn names_of<T: Named>(alloc: Global, items: &[T]) -> Result<Vec<Name>, NoMemory>
    ensures { IfOk result (λ v. v.items ≡ map T.name_of items.now) }
{
    let mut names = Vec::new(alloc);
    for item in items {
        names.push(item.name())?;
    }
    Ok(names)
}

/// Whether one of the items has the name.
pub fn lists<T: Named>(items: &[T], name: Name) -> bool
    ensures { result ≡ lists (map T.name_of items.now) name }
{
    for item in items {
        if item.name() == name {
            return true;
        }
    }
    false
}

/// Whether two of the items have one name.
pub fn repeats<T: Named>(items: &[T]) -> bool
    ensures { result ≡ repeats (map T.name_of items.now) }
{
    match items.split_first() {
        None => false,
        Some((first, rest)) => lists(rest, first.name()) || repeats(rest),
    }
}
