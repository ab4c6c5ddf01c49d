//! Each function's contract is a law, and its body does nothing.
ghost use Rattle.abc_record_ends.specs.BothEnds.{EndsBothWays};
ghost use Rattle.abc_record_ends.specs.Ends.{RecordsEndRight};
ghost use Rattle.abc_record_ends.specs.ProgramEnds.{ProgramRecordsEndRight};

use abc_body::Body;

/// In a legal record, of any shape and for every body, all numbers up to the limit were drawn, or
/// no agent's body can speak at its end.
pub fn records_end_right<B: Body>()
    ensures { RecordsEndRight B.meaning }
{}

/// A legal record whose bodies are a program's components, of any shape, tells a run of the program
/// by the calculus, to one system. Its steps are as many as the limit, or no component of this
/// system can speak; and its components are the bodies at the end of the record, but for the order
/// in which interfaces list names.
pub fn program_records_end_right()
    ensures { ProgramRecordsEndRight }
{}

/// Neither end can be left out: there is a legal record that ends at its limit with a body that
/// could still speak, and one in which nobody can speak and that ends before its limit.
pub fn records_end_both_ways()
    ensures { EndsBothWays }
{}
