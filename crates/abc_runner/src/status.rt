ghost use Rattle.std.specs.Prelude.{◌≡◌, ◌++◌, IfOk, OnOk, decimal};
ghost use Rattle.abc_runner.specs.Statuses.{code_of, fixed_line_of, cause_word, check_word, refused_line, too_much_line};

use abc_cause::{Cause, CheckCause};
use abc_value::{List, NoMemory};
use itoa::Buffer;
use std::alloc::Global;

/// How a call of `run` ended.
#[derive(Clone, Copy, Debug, PartialEq, Eq)]
pub enum Status {
    /// The text that was asked for is written.
    Done,
    /// The words are no command.
    BadWords,
    /// The command is not built yet.
    Unbuilt,
    /// The limit times the number of components is above the bound.
    TooMuch { limit: u32, components: u32 },
    /// The source has more bytes than are allowed.
    TooLong,
    /// The source's text is refused at this place, its number of bytes from the start, for this cause.
    Refused { place: u32, cause: Cause },
    /// The source failed.
    ReadFault,
    /// The sink failed after the first `written` bytes of what was due.
    WriteFault { written: usize },
    /// Memory ran out.
    NoMemory,
}

impl Status {
    /// The exit status of the program.
    pub fn code(&self) -> u8
        ensures { result ≡ code_of self.now }
    {
        match self {
            Status::Done => 0,
            Status::BadWords | Status::TooMuch { .. } => 2,
            Status::TooLong | Status::Refused { .. } => 3,
            Status::ReadFault => 4,
            Status::WriteFault { .. } => 5,
            Status::NoMemory => 6,
            Status::Unbuilt => 7,
        }
    }

    /// The line that the sink gains, with its line feed, where it has no numbers; else nothing.
    pub fn fixed_line(&self) -> &'static [u8]
        ensures { result.now ≡ fixed_line_of self.now }
    {
        match self {
            Status::BadWords => b"abc: bad words\n",
            Status::Unbuilt => b"abc: not built yet\n",
            Status::TooLong => b"abc: source too long\n",
            Status::ReadFault => b"abc: read fault\n",
            Status::NoMemory => b"abc: no memory\n",
            Status::Done | Status::WriteFault { .. } => b"",
            Status::TooMuch { .. } | Status::Refused { .. } => b"",
        }
    }
}

fn push_number(number: u32, out: &mut List<u8>) -> Result<(), NoMemory>
    ensures { OnOk result (out.new ≡ out.old ++ decimal number) }
{
    let mut buffer = Buffer::new();
    out.extend_from_slice(buffer.format(number).as_bytes())
}

/// The line of a refused text.
pub fn refused_line(alloc: Global, place: u32, cause: Cause) -> Result<List<u8>, NoMemory>
    ensures { IfOk result (λ line. line ≡ refused_line place cause) }
{
    let mut line = List::new(alloc);
    line.extend_from_slice(b"abc: refused at ")?;
    push_number(place, &mut line)?;
    line.extend_from_slice(b": ")?;
    line.extend_from_slice(cause_word(cause))?;
    line.push(b'\n')?;
    Ok(line)
}

/// The line of a limit that is too much for so many components.
pub fn too_much_line(alloc: Global, limit: u32, components: u32) -> Result<List<u8>, NoMemory>
    ensures { IfOk result (λ line. line ≡ too_much_line limit components) }
{
    let mut line = List::new(alloc);
    line.extend_from_slice(b"abc: too much: ")?;
    push_number(limit, &mut line)?;
    line.extend_from_slice(b" x ")?;
    push_number(components, &mut line)?;
    line.push(b'\n')?;
    Ok(line)
}

/// The word of a cause; a check's is its own.
fn cause_word(cause: Cause) -> &'static [u8]
    ensures { result.now ≡ cause_word cause }
{
    match cause {
        Cause::BadByte => b"BadByte",
        Cause::BadText => b"BadText",
        Cause::LongText => b"LongText",
        Cause::LongName => b"LongName",
        Cause::WideNumber => b"WideNumber",
        Cause::Syntax => b"Syntax",
        Cause::TooDeep => b"TooDeep",
        Cause::TooLarge => b"TooLarge",
        Cause::LongTuple => b"LongTuple",
        Cause::LongSet => b"LongSet",
        Cause::Check(check) => check_word(check),
    }
}

fn check_word(check: CheckCause) -> &'static [u8]
    ensures { result.now ≡ check_word check }
{
    match check {
        CheckCause::DoubleName => b"DoubleName",
        CheckCause::UnknownName => b"UnknownName",
        CheckCause::OpenVariable => b"OpenVariable",
        CheckCause::Unguarded => b"Unguarded",
        CheckCause::ParallelCycle => b"ParallelCycle",
        CheckCause::TooWide => b"TooWide",
        CheckCause::TooManyMoves => b"TooManyMoves",
        CheckCause::NoComponent => b"NoComponent",
        CheckCause::TooManyComponents => b"TooManyComponents",
    }
}
