//! Single tokens of processes.
ghost use Rattle.abc_readers.specs.Combining.{one};
ghost use Rattle.abc_readers.specs.Processes as spec;
ghost use Rattle.abc_processes.specs.Answers.{ReadsAs, Shortens};

use abc_cause::Cause;
use abc_grammar::{Lexeme, Mark};
use abc_phrases::{Parser, Stop};
use abc_pred::Name;

/// `(`
pub fn open_round(parser: &mut Parser<'_>) -> Result<(), Stop>
    ensures reads { ReadsAs (λ u. u) (one spec.round_opens) parser.old result parser.new }
    ensures shorter { Shortens parser.old result parser.new }
{
    match parser.next() {
        Some((Lexeme::Mark(Mark::OpenRound), more)) => {
            parser.rest = more;
            Ok(())
        }
        _ => Err(Stop::Refused(Cause::Syntax)),
    }
}

/// `@`
pub fn at_sign(parser: &mut Parser<'_>) -> Result<(), Stop>
    ensures reads { ReadsAs (λ u. u) (one spec.at_sign) parser.old result parser.new }
    ensures shorter { Shortens parser.old result parser.new }
{
    match parser.next() {
        Some((Lexeme::Mark(Mark::At), more)) => {
            parser.rest = more;
            Ok(())
        }
        _ => Err(Stop::Refused(Cause::Syntax)),
    }
}

/// `:=`
pub fn becomes(parser: &mut Parser<'_>) -> Result<(), Stop>
    ensures reads { ReadsAs (λ u. u) (one spec.becomes) parser.old result parser.new }
    ensures shorter { Shortens parser.old result parser.new }
{
    match parser.next() {
        Some((Lexeme::Mark(Mark::Becomes), more)) => {
            parser.rest = more;
            Ok(())
        }
        _ => Err(Stop::Refused(Cause::Syntax)),
    }
}

/// The name of an attribute.
pub fn attribute(parser: &mut Parser<'_>) -> Result<Name, Stop>
    ensures reads { ReadsAs (λ n. n) (one spec.a_name) parser.old result parser.new }
    ensures shorter { Shortens parser.old result parser.new }
{
    match parser.next() {
        Some((Lexeme::Name(name), more)) => {
            parser.rest = more;
            Ok(*name)
        }
        _ => Err(Stop::Refused(Cause::Syntax)),
    }
}

/// A variable.
pub fn variable(parser: &mut Parser<'_>) -> Result<Name, Stop>
    ensures reads { ReadsAs (λ n. n) (one spec.a_variable) parser.old result parser.new }
    ensures shorter { Shortens parser.old result parser.new }
{
    match parser.next() {
        Some((Lexeme::Variable(name), more)) => {
            parser.rest = more;
            Ok(*name)
        }
        _ => Err(Stop::Refused(Cause::Syntax)),
    }
}
