//! Operands.
ghost use Rattle.std.specs.Prelude.{◌≡◌, ◌<◌, ◌≤◌, [], ◌∷◌, length, OnOk, IfOk};
ghost use Rattle.abc_pred.specs.Standing.{operand_of};
ghost use Rattle.abc_pred.specs.Terms as term;
ghost use Rattle.abc_readers.specs.Operands as spec;
ghost use Rattle.abc_phrases.specs.Joining.{sign_of};
ghost use Rattle.abc_phrases.specs.Answers.{Answers, AnswersPart, Takes};

use crate::parser::{Parser, Part, Stop};
use abc_cause::Cause;
use abc_grammar::{Keyword, Lexeme, Mark};
use abc_pred::Operand;
use abc_value::{NoMemory, Value};
use std::alloc::Global;

/// How two operands are joined.
#[derive(Clone, Copy, Debug)]
pub enum Sign {
    Plus,
    Minus,
}

fn boxed(alloc: Global, a: Operand) -> Result<Box<Operand>, NoMemory>
    ensures { IfOk result (λ b. b.value ≡ a) }
{
    Ok(Box::new(alloc, a)?)
}

fn sum(alloc: Global, sign: Sign, a: Operand, b: Operand) -> Result<Operand, NoMemory>
    ensures { IfOk result (λ r. operand_of r ≡ sign_of sign (operand_of a) (operand_of b)) }
{
    let a = boxed(alloc, a)?;
    let b = boxed(alloc, b)?;
    match sign {
        Sign::Plus => Ok(Operand::Add(a, b)),
        Sign::Minus => Ok(Operand::Sub(a, b)),
    }
}

fn mul(alloc: Global, a: Operand, b: Operand) -> Result<Operand, NoMemory>
    ensures { IfOk result (λ r. operand_of r ≡ term.Mul (operand_of a) (operand_of b)) }
{
    let a = boxed(alloc, a)?;
    let b = boxed(alloc, b)?;
    Ok(Operand::Mul(a, b))
}

fn size(alloc: Global, a: Operand) -> Result<Operand, NoMemory>
    ensures { IfOk result (λ r. operand_of r ≡ term.Size (operand_of a)) }
{
    Ok(Operand::Size(boxed(alloc, a)?))
}

fn free(alloc: Global, a: Operand) -> Result<Operand, NoMemory>
    ensures { IfOk result (λ r. operand_of r ≡ term.Free (operand_of a)) }
{
    Ok(Operand::Free(boxed(alloc, a)?))
}

impl<'t> Parser<'t> {
    /// The name behind `this.`.
    fn own_named(&mut self) -> Result<Operand, Stop>
        ensures reads { Answers operand_of (spec.own_named self.old.rest.lexemes.now) result self.new.rest.lexemes.now }
        ensures shorter { OnOk result (length self.new.rest.lexemes.now < length self.old.rest.lexemes.now) }
    {
        match self.next() {
            Some((Lexeme::Name(a), more)) => {
                self.rest = more;
                Ok(Operand::This(*a))
            }
            _ => Err(Stop::Refused(Cause::Syntax)),
        }
    }

    /// What stands behind `this`.
    fn own(&mut self) -> Result<Operand, Stop>
        ensures reads { Answers operand_of (spec.own self.old.rest.lexemes.now) result self.new.rest.lexemes.now }
        ensures shorter { OnOk result (length self.new.rest.lexemes.now < length self.old.rest.lexemes.now) }
    {
        match self.next() {
            Some((Lexeme::Mark(Mark::Dot), more)) => {
                self.rest = more;
                self.own_named()
            }
            _ => Err(Stop::Refused(Cause::Syntax)),
        }
    }

    /// An atom. None of its fronts is one, so it is read whole or refused.
    #[tactic(auto, unfolding(abc_readers::specs::Operands::atom, abc_readers::specs::Operands::bracketed, abc_readers::specs::Operands::applied))]
    #[cycle(operand)]
    fn atom(&mut self) -> Result<Operand, Stop>
        ensures reads { Answers operand_of (spec.atom self.old.rest.lexemes.now) result self.new.rest.lexemes.now }
        ensures shorter { OnOk result (length self.new.rest.lexemes.now < length self.old.rest.lexemes.now) }
    {
        match self.next() {
            Some((Lexeme::Keyword(Keyword::None), more)) => {
                self.rest = more;
                Ok(Operand::Literal(Value::Nothing))
            }
            Some((Lexeme::Mark(Mark::OpenCurly), more)) => {
                let opened = self.rest;
                self.rest = more;
                self.set_literal(opened)
            }
            Some((Lexeme::Name(a), more)) => {
                self.rest = more;
                Ok(Operand::Attr(*a))
            }
            Some((Lexeme::Variable(x), more)) => {
                self.rest = more;
                Ok(Operand::Var(*x))
            }
            Some((Lexeme::Keyword(Keyword::This), more)) => {
                self.rest = more;
                self.own()
            }
            Some((Lexeme::Mark(Mark::OpenRound), more)) => {
                self.rest = more;
                self.bracketed()
            }
            Some((Lexeme::Keyword(Keyword::Size), more)) => {
                self.rest = more;
                let inner = self.applied()?;
                Ok(size(self.alloc, inner)?)
            }
            Some((Lexeme::Keyword(Keyword::Free), more)) => {
                self.rest = more;
                let inner = self.applied()?;
                Ok(free(self.alloc, inner)?)
            }
            _ => self.scalar_literal(),
        }
    }

    /// An operand and the bracket that closes it.
    #[tactic(auto, unfolding(abc_readers::specs::Operands::bracketed))]
    #[cycle(operand)]
    fn bracketed(&mut self) -> Result<Operand, Stop>
        ensures reads { Answers operand_of (spec.bracketed self.old.rest.lexemes.now) result self.new.rest.lexemes.now }
        ensures shorter { OnOk result (length self.new.rest.lexemes.now < length self.old.rest.lexemes.now) }
    {
        match self.operand()? {
            Part::Whole(inner) => {
                self.close_round()?;
                Ok(inner)
            }
            Part::Cut(inner, cause) => {
                drop(inner);
                self.rest = self.ahead;
                Err(Stop::Refused(cause))
            }
        }
    }

    /// What stands behind `size` or `free`.
    #[tactic(auto, unfolding(abc_readers::specs::Operands::applied, abc_readers::specs::Operands::bracketed))]
    #[cycle(operand)]
    fn applied(&mut self) -> Result<Operand, Stop>
        ensures reads { Answers operand_of (spec.applied self.old.rest.lexemes.now) result self.new.rest.lexemes.now }
        ensures shorter { OnOk result (length self.new.rest.lexemes.now < length self.old.rest.lexemes.now) }
    {
        match self.next() {
            Some((Lexeme::Mark(Mark::OpenRound), more)) => {
                self.rest = more;
                self.bracketed()
            }
            _ => Err(Stop::Refused(Cause::Syntax)),
        }
    }

    /// Atoms joined by `*`.
    #[tactic(auto, using(crate::proofs::Steps::operand_steps, abc_readers::proofs::OperandWhole::products))]
    #[cycle(operand)]
    fn product(&mut self) -> Result<Part<Operand>, Stop>
        ensures reads { AnswersPart operand_of (spec.product self.old.rest.lexemes.now) result self.new.rest.lexemes.now self.new.ahead.lexemes.now }
        ensures shorter { OnOk result (length self.new.rest.lexemes.now < length self.old.rest.lexemes.now) }
    {
        let mut left = self.atom()?;
        while let Some((Lexeme::Mark(Mark::Star), more)) = self.next() {
            let before = self.rest;
            self.rest = more;
            match self.atom() {
                Ok(right) => left = mul(self.alloc, left, right)?,
                Err(Stop::NoMemory) => return Err(Stop::NoMemory),
                Err(Stop::Refused(cause)) => return Ok(self.cut(before, left, cause)),
            }
        }
        Ok(Part::Whole(left))
    }

    /// Passes a `+` or a `-`, if one stands here.
    fn sign(&mut self) -> Option<Sign>
        ensures { Takes spec.signs sign_of self.old.rest.lexemes.now result self.new.rest.lexemes.now }
    {
        match self.next() {
            Some((Lexeme::Mark(Mark::Plus), more)) => {
                self.rest = more;
                Some(Sign::Plus)
            }
            Some((Lexeme::Mark(Mark::Minus), more)) => {
                self.rest = more;
                Some(Sign::Minus)
            }
            _ => None,
        }
    }

    /// Products joined by `+` and `-`.
    #[tactic(auto, using(crate::proofs::Steps::operand_steps, abc_readers::proofs::OperandWhole::products))]
    #[cycle(operand)]
    pub fn operand(&mut self) -> Result<Part<Operand>, Stop>
        ensures reads { AnswersPart operand_of (spec.operand self.old.rest.lexemes.now) result self.new.rest.lexemes.now self.new.ahead.lexemes.now }
        ensures shorter { OnOk result (length self.new.rest.lexemes.now < length self.old.rest.lexemes.now) }
    {
        let mut left = match self.product()? {
            Part::Whole(left) => left,
            cut => return Ok(cut),
        };
        'signs: loop {
            let before = self.rest;
            let Some(sign) = self.sign() else {
                return Ok(Part::Whole(left));
            };
            match self.product() {
                Ok(Part::Whole(right)) => left = sum(self.alloc, sign, left, right)?,
                Ok(Part::Cut(right, cause)) => {
                    return Ok(Part::Cut(sum(self.alloc, sign, left, right)?, cause));
                }
                Err(Stop::NoMemory) => return Err(Stop::NoMemory),
                Err(Stop::Refused(cause)) => return Ok(self.cut(before, left, cause)),
            }
        }
    }
}
