//! Why texts and programs are refused.
//!
//! The checks of programs and the reading of texts both name these causes, and neither stands on the
//! other.
#![tactic(auto)]

/// Why a program is refused, in the order in which the causes are taken.
#[derive(Clone, Copy, Debug, PartialEq, Eq, Drop)]
pub enum CheckCause {
    /// Two definitions or two components of one name, an attribute twice in a component's initial list
    /// or twice in its show list, or a variable twice in one input.
    DoubleName,
    /// A call of a name that no definition has.
    UnknownName,
    /// A variable that no enclosing input of the same definition or component binds.
    OpenVariable,
    /// A definition that reaches itself by calls with no action before them.
    Unguarded,
    /// A definition that reaches itself by calls and whose body holds `|`.
    ParallelCycle,
    /// A component that can have more than 64 parts side by side.
    TooWide,
    /// A definition or component with a process of whose moves there are too many.
    TooManyMoves,
    /// The program has no component.
    NoComponent,
    /// The program has more than 256 components.
    TooManyComponents,
}

/// Why a text is refused.
#[derive(Clone, Copy, Debug, PartialEq, Eq)]
pub enum Cause {
    /// A byte begins no token.
    BadByte,
    /// A text isn't closed, or holds another byte or another escape.
    BadText,
    /// A text has more than 64 bytes.
    LongText,
    /// A word has more than 32 bytes.
    LongName,
    /// A number is above 2^63, or it is 2^63 and no sign stands before it.
    WideNumber,
    /// The tokens up to here begin no text of the grammar.
    Syntax,
    /// More than 100 brackets are open.
    TooDeep,
    /// A definition or a component has more than 2,048 tokens.
    TooLarge,
    /// A tuple has more than 8 parts.
    LongTuple,
    /// A set literal has more than 256 scalars.
    LongSet,
    /// The text is a program of the grammar, and the checks refuse it.
    Check(CheckCause),
}
