//! Expressions.
ghost use Rattle.std.specs.Prelude.{◌≡◌, ◌<◌, ◌≤◌, [], ◌∷◌, ◌++◌, map, length, OnOk, IfOk};
ghost use Rattle.abc_pred.specs.Standing.{operand_of, expr_of};
ghost use Rattle.abc_pred.specs.Terms as term;
ghost use Rattle.abc_reading.specs.Reading.{mapped};
ghost use Rattle.abc_readers.specs.Operands.{operand};
ghost use Rattle.abc_readers.specs.Exprs as spec;
ghost use Rattle.abc_phrases.specs.Joining.{pairing_of};
ghost use Rattle.abc_phrases.specs.Answers.{Answers, AnswersPart};

use crate::parser::{Parser, Part, Stop};
use abc_cause::Cause;
use abc_grammar::{Keyword, Lexeme, Mark};
use abc_pred::{Expr, Operand};
use abc_value::{List, NoMemory};
use std::alloc::Global;

/// How two expressions are put together.
#[derive(Clone, Copy, Debug)]
pub enum Pairing {
    Union,
    Without,
}

fn boxed(alloc: Global, a: Expr) -> Result<Box<Expr>, NoMemory>
    ensures { IfOk result (λ b. b.value ≡ a) }
{
    Ok(Box::new(alloc, a)?)
}

fn paired(alloc: Global, pairing: Pairing, a: Expr, b: Expr) -> Result<Expr, NoMemory>
    ensures { IfOk result (λ r. expr_of r ≡ pairing_of pairing (expr_of a) (expr_of b)) }
{
    let a = boxed(alloc, a)?;
    let b = boxed(alloc, b)?;
    match pairing {
        Pairing::Union => Ok(Expr::Union(a, b)),
        Pairing::Without => Ok(Expr::Without(a, b)),
    }
}

fn push(found: &mut List<Operand>, item: Operand) -> Result<(), NoMemory>
    ensures { OnOk result (map operand_of found.new ≡ map operand_of found.old ++ operand_of item ∷ []) }
{
    found.push(item)
}

impl<'t> Parser<'t> {
    /// An operand that is read whole.
    #[tactic(auto, unfolding(abc_readers::specs::Exprs::whole_operand))]
    fn whole_operand(&mut self) -> Result<Operand, Stop>
        ensures reads { Answers operand_of (spec.whole_operand self.old.rest.lexemes.now) result self.new.rest.lexemes.now }
        ensures shorter { OnOk result (length self.new.rest.lexemes.now < length self.old.rest.lexemes.now) }
    {
        match self.operand()? {
            Part::Whole(item) => Ok(item),
            Part::Cut(item, cause) => {
                drop(item);
                self.rest = self.ahead;
                Err(Stop::Refused(cause))
            }
        }
    }

    /// The operands of a set, of which there is at least one, and the bracket that closes it.
    #[tactic(auto, using(crate::proofs::ExprSteps::item_steps), unfolding(abc_readers::specs::Exprs::items))]
    fn items(&mut self) -> Result<List<Operand>, Stop>
        ensures reads { Answers (map operand_of) (spec.items self.old.rest.lexemes.now) result self.new.rest.lexemes.now }
        ensures shorter { OnOk result (length self.new.rest.lexemes.now < length self.old.rest.lexemes.now) }
    {
        let mut found = List::new(self.alloc);
        let first = self.whole_operand()?;
        push(&mut found, first)?;
        while let Some((Lexeme::Mark(Mark::Comma), more)) = self.next() {
            self.rest = more;
            let item = self.whole_operand()?;
            push(&mut found, item)?;
        }
        self.close_round()?;
        Ok(found)
    }

    /// What stands behind the bracket that opens a set.
    fn items_at(&mut self) -> Result<List<Operand>, Stop>
        ensures reads { Answers (map operand_of) (spec.items_at self.old.rest.lexemes.now) result self.new.rest.lexemes.now }
        ensures shorter { OnOk result (length self.new.rest.lexemes.now < length self.old.rest.lexemes.now) }
    {
        match self.next() {
            Some((Lexeme::Mark(Mark::CloseRound), more)) => {
                self.rest = more;
                Ok(List::new(self.alloc))
            }
            _ => self.items(),
        }
    }

    /// What stands behind `set`.
    fn set_items(&mut self) -> Result<List<Operand>, Stop>
        ensures reads { Answers (map operand_of) (spec.set_items self.old.rest.lexemes.now) result self.new.rest.lexemes.now }
        ensures shorter { OnOk result (length self.new.rest.lexemes.now < length self.old.rest.lexemes.now) }
    {
        match self.next() {
            Some((Lexeme::Mark(Mark::OpenRound), more)) => {
                self.rest = more;
                self.items_at()
            }
            _ => Err(Stop::Refused(Cause::Syntax)),
        }
    }

    /// Passes a comma.
    fn comma(&mut self) -> Result<(), Stop>
        ensures reads { Answers (λ u. u) (spec.comma tt self.old.rest.lexemes.now) result self.new.rest.lexemes.now }
        ensures shorter { OnOk result (length self.new.rest.lexemes.now < length self.old.rest.lexemes.now) }
    {
        match self.next() {
            Some((Lexeme::Mark(Mark::Comma), more)) => {
                self.rest = more;
                Ok(())
            }
            _ => Err(Stop::Refused(Cause::Syntax)),
        }
    }

    /// An expression that is read whole.
    #[tactic(auto, unfolding(abc_readers::specs::Exprs::whole_expr))]
    #[cycle(expr)]
    pub fn whole_expr(&mut self) -> Result<Expr, Stop>
        ensures reads { Answers expr_of (spec.whole_expr self.old.rest.lexemes.now) result self.new.rest.lexemes.now }
        ensures shorter { OnOk result (length self.new.rest.lexemes.now < length self.old.rest.lexemes.now) }
    {
        match self.expr()? {
            Part::Whole(inner) => Ok(inner),
            Part::Cut(inner, cause) => {
                drop(inner);
                self.rest = self.ahead;
                Err(Stop::Refused(cause))
            }
        }
    }

    /// The two expressions behind an opening bracket, and the bracket that closes them.
    #[tactic(auto, unfolding(abc_readers::specs::Exprs::two_exprs, abc_readers::specs::Exprs::whole_expr))]
    #[cycle(expr)]
    fn two_exprs(&mut self, pairing: Pairing) -> Result<Expr, Stop>
        ensures reads { Answers expr_of (spec.two_exprs (pairing_of pairing) self.old.rest.lexemes.now) result self.new.rest.lexemes.now }
        ensures shorter { OnOk result (length self.new.rest.lexemes.now < length self.old.rest.lexemes.now) }
    {
        let first = self.whole_expr()?;
        self.comma()?;
        let second = self.whole_expr()?;
        self.close_round()?;
        Ok(paired(self.alloc, pairing, first, second)?)
    }

    /// What stands behind `union` or `without`.
    #[tactic(auto, unfolding(abc_readers::specs::Exprs::pair, abc_readers::specs::Exprs::two_exprs))]
    #[cycle(expr)]
    fn pair(&mut self, pairing: Pairing) -> Result<Expr, Stop>
        ensures reads { Answers expr_of (spec.pair (pairing_of pairing) self.old.rest.lexemes.now) result self.new.rest.lexemes.now }
        ensures shorter { OnOk result (length self.new.rest.lexemes.now < length self.old.rest.lexemes.now) }
    {
        match self.next() {
            Some((Lexeme::Mark(Mark::OpenRound), more)) => {
                self.rest = more;
                self.two_exprs(pairing)
            }
            _ => Err(Stop::Refused(Cause::Syntax)),
        }
    }

    /// An operand as an expression.
    fn plain_expr(&mut self) -> Result<Part<Expr>, Stop>
        ensures reads { AnswersPart expr_of (mapped term.Plain (operand self.old.rest.lexemes.now)) result self.new.rest.lexemes.now self.new.ahead.lexemes.now }
        ensures shorter { OnOk result (length self.new.rest.lexemes.now < length self.old.rest.lexemes.now) }
    {
        match self.operand()? {
            Part::Whole(inner) => Ok(Part::Whole(Expr::Plain(inner))),
            Part::Cut(inner, cause) => Ok(Part::Cut(Expr::Plain(inner), cause)),
        }
    }

    /// An expression, as far as it goes.
    #[tactic(auto, using(crate::proofs::ExprSteps::expr_steps), unfolding(abc_readers::specs::Exprs::pair))]
    #[cycle(expr)]
    pub fn expr(&mut self) -> Result<Part<Expr>, Stop>
        ensures reads { AnswersPart expr_of (spec.expr self.old.rest.lexemes.now) result self.new.rest.lexemes.now self.new.ahead.lexemes.now }
        ensures shorter { OnOk result (length self.new.rest.lexemes.now < length self.old.rest.lexemes.now) }
    {
        match self.next() {
            Some((Lexeme::Keyword(Keyword::Set), more)) => {
                self.rest = more;
                let items = self.set_items()?;
                Ok(Part::Whole(Expr::SetOf(items)))
            }
            Some((Lexeme::Keyword(Keyword::Union), more)) => {
                self.rest = more;
                let inner = self.pair(Pairing::Union)?;
                Ok(Part::Whole(inner))
            }
            Some((Lexeme::Keyword(Keyword::Without), more)) => {
                self.rest = more;
                let inner = self.pair(Pairing::Without)?;
                Ok(Part::Whole(inner))
            }
            _ => self.plain_expr(),
        }
    }
}
