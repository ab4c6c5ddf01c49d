//! What no clause says: that the call answers where there is memory.

use crate::{CheckCause, CheckRefusal, Site, check};
use abc_pred::Name;
use abc_term::{Component, Process, Program};
use abc_value::{List, NoMemory};
use std::alloc::Global;
use std::test::Fail;

/// A component that does this.
fn component(alloc: Global, run: Process) -> Component {
    Component {
        name: Name(0),
        initial: List::new(alloc),
        show: List::new(alloc),
        run,
    }
}

/// What `check` answers for the program of these components and no definition.
fn answer(alloc: Global, components: List<Component>) -> Result<(), CheckRefusal> {
    let program = Program {
        names: List::new(alloc),
        components,
        definitions: List::new(alloc),
    };
    if program.components.len() < 1000 && program.definitions.len() < 1000 {
        check(alloc, &program)
    } else {
        Err(CheckRefusal::NoMemory)
    }
}

/// One component that does this.
fn alone(alloc: Global, run: Process) -> Result<List<Component>, NoMemory> {
    let mut components = List::new(alloc);
    components.push(component(alloc, run))?;
    Ok(components)
}

#[test]
fn small_programs(rt: HostRuntime) -> Result<(), Fail> {
    let none = List::new(rt.alloc());
    let refused = Err(CheckRefusal::Bad(CheckCause::NoComponent, Site::Whole));
    assert_eq!(rt; answer(rt.alloc(), none), refused, "no component");
    let idle = alone(rt.alloc(), Process::Nil)?;
    assert_eq!(rt;
        answer(rt.alloc(), idle),
        Ok(()),
        "a component that does nothing"
    );
    let calls = alone(rt.alloc(), Process::Call(Name(7)))?;
    let unknown = Err(CheckRefusal::Bad(CheckCause::UnknownName, Site::Component(0)));
    assert_eq!(rt;
        answer(rt.alloc(), calls),
        unknown,
        "a call of a name without definition"
    );
    Ok(())
}
