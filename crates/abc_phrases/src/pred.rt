//! Predicates.
ghost use Rattle.std.specs.Prelude.{◌≡◌, ◌<◌, ◌≤◌, [], ◌∷◌, length, OnOk, IfOk};
ghost use Rattle.abc_pred.specs.Standing.{operand_of, pred_of};
ghost use Rattle.abc_pred.specs.Terms as term;
ghost use Rattle.abc_readers.specs.Preds as spec;
ghost use Rattle.abc_phrases.specs.Joining.{comparison_of};
ghost use Rattle.abc_phrases.specs.Answers.{Answers, AnswersPart, Takes, PassesNots};

use crate::parser::{Parser, Part, Stop};
use abc_cause::Cause;
use abc_grammar::{Keyword, Lexeme, Mark};
use abc_pred::{Operand, Pred};
use abc_value::NoMemory;
use std::alloc::Global;

/// How two operands are compared.
#[derive(Clone, Copy, Debug)]
pub enum Comparison {
    Same,
    Less,
    Member,
}

fn boxed(alloc: Global, a: Pred) -> Result<Box<Pred>, NoMemory>
    ensures { IfOk result (λ b. b.value ≡ a) }
{
    Ok(Box::new(alloc, a)?)
}

fn and(alloc: Global, a: Pred, b: Pred) -> Result<Pred, NoMemory>
    ensures { IfOk result (λ r. pred_of r ≡ term.And (pred_of a) (pred_of b)) }
{
    let a = boxed(alloc, a)?;
    let b = boxed(alloc, b)?;
    Ok(Pred::And(a, b))
}

fn or(alloc: Global, a: Pred, b: Pred) -> Result<Pred, NoMemory>
    ensures { IfOk result (λ r. pred_of r ≡ term.Or (pred_of a) (pred_of b)) }
{
    let a = boxed(alloc, a)?;
    let b = boxed(alloc, b)?;
    Ok(Pred::Or(a, b))
}

fn not(alloc: Global, a: Pred) -> Result<Pred, NoMemory>
    ensures { IfOk result (λ r. pred_of r ≡ term.Not (pred_of a)) }
{
    Ok(Pred::Not(boxed(alloc, a)?))
}

/// The predicate behind so many `not`s.
fn negated(alloc: Global, nots: usize, a: Pred) -> Result<Pred, NoMemory>
    ensures { IfOk result (λ r. pred_of r ≡ spec.nots nots (pred_of a)) }
{
    let mut made = a;
    for _i in 0..nots {
        made = not(alloc, made)?;
    }
    Ok(made)
}

fn compare(comparison: Comparison, a: Operand, b: Operand) -> Pred
    ensures { pred_of result ≡ comparison_of comparison (operand_of a) (operand_of b) }
{
    match comparison {
        Comparison::Same => Pred::Same(a, b),
        Comparison::Less => Pred::Less(a, b),
        Comparison::Member => Pred::Member(a, b),
    }
}

impl<'t> Parser<'t> {
    /// Passes a token that compares, if one stands here.
    fn comparing(&mut self) -> Option<Comparison>
        ensures { Takes spec.comparing comparison_of self.old.rest.lexemes.now result self.new.rest.lexemes.now }
    {
        match self.next() {
            Some((Lexeme::Mark(Mark::Equal), more)) => {
                self.rest = more;
                Some(Comparison::Same)
            }
            Some((Lexeme::Mark(Mark::Below), more)) => {
                self.rest = more;
                Some(Comparison::Less)
            }
            Some((Lexeme::Keyword(Keyword::In), more)) => {
                self.rest = more;
                Some(Comparison::Member)
            }
            _ => None,
        }
    }

    /// What follows the first operand of a comparison.
    fn compared(&mut self, left: Operand) -> Result<Part<Pred>, Stop>
        ensures reads { AnswersPart pred_of (spec.compared (operand_of left) self.old.rest.lexemes.now) result self.new.rest.lexemes.now self.new.ahead.lexemes.now }
        ensures shorter { OnOk result (length self.new.rest.lexemes.now < length self.old.rest.lexemes.now) }
    {
        let Some(comparison) = self.comparing() else {
            return Err(Stop::Refused(Cause::Syntax));
        };
        match self.operand()? {
            Part::Whole(right) => Ok(Part::Whole(compare(comparison, left, right))),
            Part::Cut(right, cause) => Ok(Part::Cut(compare(comparison, left, right), cause)),
        }
    }

    #[tactic(auto, unfolding(abc_readers::specs::Preds::comparison))]
    fn comparison(&mut self) -> Result<Part<Pred>, Stop>
        ensures reads { AnswersPart pred_of (spec.comparison self.old.rest.lexemes.now) result self.new.rest.lexemes.now self.new.ahead.lexemes.now }
        ensures shorter { OnOk result (length self.new.rest.lexemes.now < length self.old.rest.lexemes.now) }
    {
        match self.operand()? {
            Part::Whole(left) => self.compared(left),
            Part::Cut(left, cause) => {
                drop(left);
                self.rest = self.ahead;
                Err(Stop::Refused(cause))
            }
        }
    }

    /// Passes the `not`s that stand here, and counts them.
    fn nots(&mut self) -> usize
        ensures passed { PassesNots self.old.rest.lexemes.now result self.new.rest.lexemes.now }
        ensures leaves { length self.new.rest.lexemes.now ≤ length self.old.rest.lexemes.now }
    {
        let before = self.rest.len();
        while let Some((Lexeme::Keyword(Keyword::Not), more)) = self.next() {
            self.rest = more;
        }
        before - self.rest.len()
    }

    /// A test that begins with no `not`.
    #[tactic(auto, unfolding(abc_readers::specs::Preds::plain, abc_readers::specs::Preds::bracketed))]
    #[cycle(pred)]
    fn plain(&mut self) -> Result<Part<Pred>, Stop>
        ensures reads { AnswersPart pred_of (spec.plain self.old.rest.lexemes.now) result self.new.rest.lexemes.now self.new.ahead.lexemes.now }
        ensures shorter { OnOk result (length self.new.rest.lexemes.now < length self.old.rest.lexemes.now) }
    {
        match self.next() {
            Some((Lexeme::Keyword(Keyword::Tt), more)) => {
                self.rest = more;
                Ok(Part::Whole(Pred::True))
            }
            Some((Lexeme::Keyword(Keyword::Ff), more)) => {
                self.rest = more;
                Ok(Part::Whole(Pred::False))
            }
            Some((Lexeme::Mark(Mark::OpenSquare), more)) => {
                self.rest = more;
                self.bracketed_pred()
            }
            _ => self.comparison(),
        }
    }

    /// A predicate and the bracket that closes it.
    #[tactic(auto, unfolding(abc_readers::specs::Preds::bracketed))]
    #[cycle(pred)]
    fn bracketed_pred(&mut self) -> Result<Part<Pred>, Stop>
        ensures reads { AnswersPart pred_of (spec.bracketed self.old.rest.lexemes.now) result self.new.rest.lexemes.now self.new.ahead.lexemes.now }
        ensures shorter { OnOk result (length self.new.rest.lexemes.now < length self.old.rest.lexemes.now) }
    {
        match self.pred()? {
            Part::Whole(inner) => {
                self.close_square()?;
                Ok(Part::Whole(inner))
            }
            Part::Cut(inner, cause) => {
                drop(inner);
                self.rest = self.ahead;
                Err(Stop::Refused(cause))
            }
        }
    }

    #[tactic(auto, using(crate::proofs::Steps::test_steps))]
    #[cycle(pred)]
    fn test(&mut self) -> Result<Part<Pred>, Stop>
        ensures reads { AnswersPart pred_of (spec.test self.old.rest.lexemes.now) result self.new.rest.lexemes.now self.new.ahead.lexemes.now }
        ensures shorter { OnOk result (length self.new.rest.lexemes.now < length self.old.rest.lexemes.now) }
    {
        let nots = self.nots();
        match self.plain()? {
            Part::Whole(inner) => Ok(Part::Whole(negated(self.alloc, nots, inner)?)),
            Part::Cut(inner, cause) => Ok(Part::Cut(negated(self.alloc, nots, inner)?, cause)),
        }
    }

    /// Tests joined by `and`.
    #[tactic(auto, using(crate::proofs::Steps::pred_steps, abc_readers::proofs::PredWhole::preds))]
    #[cycle(pred)]
    fn both(&mut self) -> Result<Part<Pred>, Stop>
        ensures reads { AnswersPart pred_of (spec.both self.old.rest.lexemes.now) result self.new.rest.lexemes.now self.new.ahead.lexemes.now }
        ensures shorter { OnOk result (length self.new.rest.lexemes.now < length self.old.rest.lexemes.now) }
    {
        let mut left = match self.test()? {
            Part::Whole(left) => left,
            cut => return Ok(cut),
        };
        while let Some((Lexeme::Keyword(Keyword::And), more)) = self.next() {
            let before = self.rest;
            self.rest = more;
            match self.test() {
                Ok(Part::Whole(right)) => left = and(self.alloc, left, right)?,
                Ok(Part::Cut(right, cause)) => {
                    return Ok(Part::Cut(and(self.alloc, left, right)?, cause));
                }
                Err(Stop::NoMemory) => return Err(Stop::NoMemory),
                Err(Stop::Refused(cause)) => return Ok(self.cut(before, left, cause)),
            }
        }
        Ok(Part::Whole(left))
    }

    /// A predicate, as far as it goes.
    #[tactic(auto, using(crate::proofs::Steps::pred_steps, abc_readers::proofs::PredWhole::preds))]
    #[cycle(pred)]
    pub fn pred(&mut self) -> Result<Part<Pred>, Stop>
        ensures reads { AnswersPart pred_of (spec.pred self.old.rest.lexemes.now) result self.new.rest.lexemes.now self.new.ahead.lexemes.now }
        ensures shorter { OnOk result (length self.new.rest.lexemes.now < length self.old.rest.lexemes.now) }
    {
        let mut left = match self.both()? {
            Part::Whole(left) => left,
            cut => return Ok(cut),
        };
        while let Some((Lexeme::Keyword(Keyword::Or), more)) = self.next() {
            let before = self.rest;
            self.rest = more;
            match self.both() {
                Ok(Part::Whole(right)) => left = or(self.alloc, left, right)?,
                Ok(Part::Cut(right, cause)) => {
                    return Ok(Part::Cut(or(self.alloc, left, right)?, cause));
                }
                Err(Stop::NoMemory) => return Err(Stop::NoMemory),
                Err(Stop::Refused(cause)) => return Ok(self.cut(before, left, cause)),
            }
        }
        Ok(Part::Whole(left))
    }
}
