//! The words and symbols of programs, each passed where it stands next.
ghost use Rattle.std.specs.Prelude.{◌≡◌, ◌<◌, [], ◌∷◌, length, OnOk};
ghost use Rattle.abc_readers.specs.Combining.{one};
ghost use Rattle.abc_readers.specs.Processes.{a_name};
ghost use Rattle.abc_readers.specs.Programs as spec;
ghost use Rattle.abc_phrases.specs.Answers.{Answers};

use abc_cause::Cause;
use abc_grammar::{Keyword, Lexeme, Mark};
use abc_phrases::{Parser, Stop};
use abc_pred::Name;

/// `abc`
pub fn abc_word(parser: &mut Parser<'_>) -> Result<(), Stop>
    ensures reads { Answers (λ u. u) (one spec.abc_word parser.old.rest.lexemes.now) result parser.new.rest.lexemes.now }
    ensures shorter { OnOk result (length parser.new.rest.lexemes.now < length parser.old.rest.lexemes.now) }
{
    match parser.next() {
        Some((Lexeme::Keyword(Keyword::Abc), more)) => {
            parser.rest = more;
            Ok(())
        }
        _ => Err(Stop::Refused(Cause::Syntax)),
    }
}

/// `def`
pub fn def_word(parser: &mut Parser<'_>) -> Result<(), Stop>
    ensures reads { Answers (λ u. u) (one spec.def_word parser.old.rest.lexemes.now) result parser.new.rest.lexemes.now }
    ensures shorter { OnOk result (length parser.new.rest.lexemes.now < length parser.old.rest.lexemes.now) }
{
    match parser.next() {
        Some((Lexeme::Keyword(Keyword::Def), more)) => {
            parser.rest = more;
            Ok(())
        }
        _ => Err(Stop::Refused(Cause::Syntax)),
    }
}

/// `comp`
pub fn comp_word(parser: &mut Parser<'_>) -> Result<(), Stop>
    ensures reads { Answers (λ u. u) (one spec.comp_word parser.old.rest.lexemes.now) result parser.new.rest.lexemes.now }
    ensures shorter { OnOk result (length parser.new.rest.lexemes.now < length parser.old.rest.lexemes.now) }
{
    match parser.next() {
        Some((Lexeme::Keyword(Keyword::Comp), more)) => {
            parser.rest = more;
            Ok(())
        }
        _ => Err(Stop::Refused(Cause::Syntax)),
    }
}

/// `show`
pub fn show_word(parser: &mut Parser<'_>) -> Result<(), Stop>
    ensures reads { Answers (λ u. u) (one spec.show_word parser.old.rest.lexemes.now) result parser.new.rest.lexemes.now }
    ensures shorter { OnOk result (length parser.new.rest.lexemes.now < length parser.old.rest.lexemes.now) }
{
    match parser.next() {
        Some((Lexeme::Keyword(Keyword::Show), more)) => {
            parser.rest = more;
            Ok(())
        }
        _ => Err(Stop::Refused(Cause::Syntax)),
    }
}

/// `run`
pub fn run_word(parser: &mut Parser<'_>) -> Result<(), Stop>
    ensures reads { Answers (λ u. u) (one spec.run_word parser.old.rest.lexemes.now) result parser.new.rest.lexemes.now }
    ensures shorter { OnOk result (length parser.new.rest.lexemes.now < length parser.old.rest.lexemes.now) }
{
    match parser.next() {
        Some((Lexeme::Keyword(Keyword::Run), more)) => {
            parser.rest = more;
            Ok(())
        }
        _ => Err(Stop::Refused(Cause::Syntax)),
    }
}

/// `=`
pub fn equal(parser: &mut Parser<'_>) -> Result<(), Stop>
    ensures reads { Answers (λ u. u) (one spec.equal parser.old.rest.lexemes.now) result parser.new.rest.lexemes.now }
    ensures shorter { OnOk result (length parser.new.rest.lexemes.now < length parser.old.rest.lexemes.now) }
{
    match parser.next() {
        Some((Lexeme::Mark(Mark::Equal), more)) => {
            parser.rest = more;
            Ok(())
        }
        _ => Err(Stop::Refused(Cause::Syntax)),
    }
}

/// `;`
pub fn semicolon(parser: &mut Parser<'_>) -> Result<(), Stop>
    ensures reads { Answers (λ u. u) (one spec.semicolon parser.old.rest.lexemes.now) result parser.new.rest.lexemes.now }
    ensures shorter { OnOk result (length parser.new.rest.lexemes.now < length parser.old.rest.lexemes.now) }
{
    match parser.next() {
        Some((Lexeme::Mark(Mark::Semicolon), more)) => {
            parser.rest = more;
            Ok(())
        }
        _ => Err(Stop::Refused(Cause::Syntax)),
    }
}

/// `{`
pub fn curly_opens(parser: &mut Parser<'_>) -> Result<(), Stop>
    ensures reads { Answers (λ u. u) (one spec.curly_opens parser.old.rest.lexemes.now) result parser.new.rest.lexemes.now }
    ensures shorter { OnOk result (length parser.new.rest.lexemes.now < length parser.old.rest.lexemes.now) }
{
    match parser.next() {
        Some((Lexeme::Mark(Mark::OpenCurly), more)) => {
            parser.rest = more;
            Ok(())
        }
        _ => Err(Stop::Refused(Cause::Syntax)),
    }
}

/// `}`
pub fn curly_closes(parser: &mut Parser<'_>) -> Result<(), Stop>
    ensures reads { Answers (λ u. u) (one spec.curly_closes parser.old.rest.lexemes.now) result parser.new.rest.lexemes.now }
    ensures shorter { OnOk result (length parser.new.rest.lexemes.now < length parser.old.rest.lexemes.now) }
{
    match parser.next() {
        Some((Lexeme::Mark(Mark::CloseCurly), more)) => {
            parser.rest = more;
            Ok(())
        }
        _ => Err(Stop::Refused(Cause::Syntax)),
    }
}

/// The number of the header, which is 1.
pub fn header_number(parser: &mut Parser<'_>) -> Result<(), Stop>
    ensures reads { Answers (λ u. u) (one spec.header_number parser.old.rest.lexemes.now) result parser.new.rest.lexemes.now }
    ensures shorter { OnOk result (length parser.new.rest.lexemes.now < length parser.old.rest.lexemes.now) }
{
    match parser.next() {
        Some((Lexeme::Number(1), more)) => {
            parser.rest = more;
            Ok(())
        }
        _ => Err(Stop::Refused(Cause::Syntax)),
    }
}

/// A name.
pub fn name(parser: &mut Parser<'_>) -> Result<Name, Stop>
    ensures reads { Answers (λ n. n) (one a_name parser.old.rest.lexemes.now) result parser.new.rest.lexemes.now }
    ensures shorter { OnOk result (length parser.new.rest.lexemes.now < length parser.old.rest.lexemes.now) }
{
    match parser.next() {
        Some((Lexeme::Name(name), more)) => {
            parser.rest = more;
            Ok(*name)
        }
        _ => Err(Stop::Refused(Cause::Syntax)),
    }
}
