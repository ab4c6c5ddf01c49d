use abc_cause::CheckCause;

/// Where a cause applies: the definition or the component of a number, counted from 0, or the whole
/// program.
#[derive(Clone, Copy, Debug, PartialEq, Eq, Drop)]
pub enum Site {
    Definition(u32),
    Component(u32),
    Whole,
}

/// Why `check` gave no leave: the program is bad, or there was no memory.
#[derive(Clone, Copy, Debug, PartialEq, Eq, Drop)]
pub enum CheckRefusal {
    Bad(CheckCause, Site),
    NoMemory,
}
