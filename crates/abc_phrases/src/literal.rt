//! Literals.
ghost use Rattle.std.specs.Prelude.{◌≡◌, ◌<◌, ◌≤◌, [], ◌∷◌, ◌++◌, length, OnOk, IfOk, Some, None, pos, neg_ℤ, if◌then◌else◌};
ghost use Rattle.abc_value.specs.declared.scalar.Scalar.TheVariants.{Text};
ghost use Rattle.abc_value.specs.declared.value.Value.TheVariants as value;
ghost use Rattle.abc_value.specs.Values.{fits_64};
ghost use Rattle.abc_value.specs.Sets.{set_of};
ghost use Rattle.abc_pred.specs.Standing.{operand_of};
ghost use Rattle.abc_readers.specs.Operands as spec;
ghost use Rattle.abc_grammar.specs.declared.lexemes.Lexeme.TheVariants as l;
ghost use Rattle.abc_text.specs.declared.words.Mark.TheVariants as m;
ghost use Rattle.abc_phrases.specs.Answers.{Answers};
ghost use Rattle.abc_phrases.specs.Fitting.{BeginsSet};
ghost use Rattle.abc_reading.specs.Reading.{mapped};

use crate::parser::{Left, Parser, Stop};
use abc_cause::Cause;
use abc_grammar::{Keyword, Lexeme, Mark};
use abc_pred::Operand;
use abc_value::{NoMemory, Scalar, SetValue, ShortText, Value};

/// The number, where it is one of 64 bits.
fn natural(n: u64) -> Option<i64>
    ensures { result ≡ (if fits_64 (pos n) then Some (pos n) else None) }
{
    if n < 1 << 63 { Some(n as i64) } else { None }
}

/// The number behind a sign, where it is one of 64 bits.
fn negated(n: u64) -> Option<i64>
    ensures { result ≡ (if fits_64 (neg_ℤ (pos n)) then Some (neg_ℤ (pos n)) else None) }
{
    if n == 0 {
        Some(0)
    } else if n <= 1 << 63 {
        Some(-1 - (n - 1) as i64)
    } else {
        None
    }
}

impl<'t> Parser<'t> {
    /// What stands behind a sign.
    fn negative(&mut self) -> Result<Scalar, Stop>
        ensures reads { Answers (λ x. x) (spec.negative self.old.rest.lexemes.now) result self.new.rest.lexemes.now }
        ensures shorter { OnOk result (length self.new.rest.lexemes.now < length self.old.rest.lexemes.now) }
    {
        match self.next() {
            Some((Lexeme::Number(n), more)) => match negated(*n) {
                Some(n) => {
                    self.rest = more;
                    Ok(Scalar::Number(n))
                }
                None => Err(Stop::Refused(Cause::Syntax)),
            },
            _ => Err(Stop::Refused(Cause::Syntax)),
        }
    }

    /// A scalar.
    #[tactic(auto, unfolding(abc_readers::specs::Operands::scalar))]
    pub fn scalar(&mut self) -> Result<Scalar, Stop>
        ensures reads { Answers (λ x. x) (spec.scalar self.old.rest.lexemes.now) result self.new.rest.lexemes.now }
        ensures shorter { OnOk result (length self.new.rest.lexemes.now < length self.old.rest.lexemes.now) }
    {
        match self.next() {
            Some((Lexeme::Number(n), more)) => match natural(*n) {
                Some(n) => {
                    self.rest = more;
                    Ok(Scalar::Number(n))
                }
                None => Err(Stop::Refused(Cause::Syntax)),
            },
            Some((Lexeme::Mark(Mark::Minus), more)) => {
                self.rest = more;
                self.negative()
            }
            Some((Lexeme::Keyword(Keyword::True), more)) => {
                self.rest = more;
                Ok(Scalar::Truth(true))
            }
            Some((Lexeme::Keyword(Keyword::False), more)) => {
                self.rest = more;
                Ok(Scalar::Truth(false))
            }
            _ => self.text(),
        }
    }

    /// A text.
    fn text(&mut self) -> Result<Scalar, Stop>
        ensures reads { Answers (λ x. x) (spec.text_at self.old.rest.lexemes.now) result self.new.rest.lexemes.now }
        ensures shorter { OnOk result (length self.new.rest.lexemes.now < length self.old.rest.lexemes.now) }
    {
        let Some((first, more)) = self.next() else {
            return Err(Stop::Refused(Cause::Syntax));
        };
        match first {
            Lexeme::Text(text) => {
                self.rest = more;
                Ok(text_scalar(text.text()))
            }
            _ => Err(Stop::Refused(Cause::Syntax)),
        }
    }

    /// The scalars of a set literal, of which there is at least one, and the brace that closes it.
    #[tactic(auto, using(crate::proofs::Steps::scalar_steps), unfolding(abc_readers::specs::Operands::members))]
    fn members(&mut self) -> Result<Vec<Scalar>, Stop>
        ensures reads { Answers (λ v. v.items) (spec.members self.old.rest.lexemes.now) result self.new.rest.lexemes.now }
        ensures shorter { OnOk result (length self.new.rest.lexemes.now < length self.old.rest.lexemes.now) }
    {
        let mut found = Vec::new(self.alloc);
        let first = self.scalar()?;
        push(&mut found, first)?;
        while let Some((Lexeme::Mark(Mark::Comma), more)) = self.next() {
            self.rest = more;
            let scalar = self.scalar()?;
            push(&mut found, scalar)?;
        }
        self.close_curly()?;
        Ok(found)
    }

    /// What stands behind the brace that opens a set literal.
    fn members_at(&mut self) -> Result<Vec<Scalar>, Stop>
        ensures reads { Answers (λ v. v.items) (spec.members_at self.old.rest.lexemes.now) result self.new.rest.lexemes.now }
        ensures shorter { OnOk result (length self.new.rest.lexemes.now < length self.old.rest.lexemes.now) }
    {
        match self.next() {
            Some((Lexeme::Mark(Mark::CloseCurly), more)) => {
                self.rest = more;
                Ok(Vec::new(self.alloc))
            }
            _ => self.members(),
        }
    }

    /// A set, behind the brace that opens it.
    fn set(&mut self, opened: Left<'t>) -> Result<SetValue, Stop>
        requires opened { opened.lexemes.now ≡ l.Mark m.OpenCurly ∷ self.old.rest.lexemes.now }
        ensures reads { Answers (λ x. x) (mapped set_of (spec.members_at self.old.rest.lexemes.now)) result self.new.rest.lexemes.now }
        ensures shorter { OnOk result (length self.new.rest.lexemes.now < length self.old.rest.lexemes.now) }
    {
        let scalars = self.members_at()?;
        Ok(set_value(opened, scalars))
    }

    /// A set literal, behind the brace that opens it.
    pub fn set_literal(&mut self, opened: Left<'t>) -> Result<Operand, Stop>
        requires opened { opened.lexemes.now ≡ l.Mark m.OpenCurly ∷ self.old.rest.lexemes.now }
        ensures reads { Answers operand_of (mapped spec.set_literal_of (spec.members_at self.old.rest.lexemes.now)) result self.new.rest.lexemes.now }
        ensures shorter { OnOk result (length self.new.rest.lexemes.now < length self.old.rest.lexemes.now) }
    {
        let set = self.set(opened)?;
        Ok(Operand::Literal(Value::Set(set)))
    }

    /// A literal.
    #[tactic(auto, unfolding(abc_readers::specs::Operands::literal))]
    pub fn literal(&mut self) -> Result<Value, Stop>
        ensures reads { Answers (λ x. x) (spec.literal self.old.rest.lexemes.now) result self.new.rest.lexemes.now }
        ensures shorter { OnOk result (length self.new.rest.lexemes.now < length self.old.rest.lexemes.now) }
    {
        match self.next() {
            Some((Lexeme::Keyword(Keyword::None), more)) => {
                self.rest = more;
                Ok(Value::Nothing)
            }
            Some((Lexeme::Mark(Mark::OpenCurly), more)) => {
                let opened = self.rest;
                self.rest = more;
                let set = self.set(opened)?;
                Ok(Value::Set(set))
            }
            _ => self.scalar_value(),
        }
    }

    /// A scalar as a value.
    fn scalar_value(&mut self) -> Result<Value, Stop>
        ensures reads { Answers (λ x. x) (mapped value.Scalar (spec.scalar self.old.rest.lexemes.now)) result self.new.rest.lexemes.now }
        ensures shorter { OnOk result (length self.new.rest.lexemes.now < length self.old.rest.lexemes.now) }
    {
        let scalar = self.scalar()?;
        Ok(Value::Scalar(scalar))
    }

    /// A scalar as an operand.
    pub fn scalar_literal(&mut self) -> Result<Operand, Stop>
        ensures reads { Answers operand_of (mapped spec.literal_of (spec.scalar self.old.rest.lexemes.now)) result self.new.rest.lexemes.now }
        ensures shorter { OnOk result (length self.new.rest.lexemes.now < length self.old.rest.lexemes.now) }
    {
        let scalar = self.scalar()?;
        Ok(Operand::Literal(Value::Scalar(scalar)))
    }
}

fn text_scalar(text: &ShortText) -> Scalar
    ensures { result ≡ Text text.now }
{
    Scalar::Text(*text)
}

fn push(found: &mut Vec<Scalar>, scalar: Scalar) -> Result<(), NoMemory>
    ensures { OnOk result (found.new.items ≡ found.old.items ++ scalar ∷ []) }
{
    found.push(scalar)?;
    Ok(())
}

/// The set of the scalars of a set literal, which are never too many.
fn set_value(opened: Left<'_>, scalars: Vec<Scalar>) -> SetValue
    requires { BeginsSet opened.lexemes.now scalars.items }
    ensures { result ≡ set_of scalars.items }
{
    match SetValue::from_scalars(scalars) {
        Some(set) => set,
        None => unreachable!(),
    }
}
