//! The lists in round brackets: the expressions of an output and the variables of an input.
ghost use Rattle.std.specs.Prelude.{◌≡◌, [], ◌∷◌, ◌++◌, map, OnOk};
ghost use Rattle.abc_pred.specs.Standing.{expr_of};
ghost use Rattle.abc_term.specs.Standing.{exprs_of};
ghost use Rattle.abc_readers.specs.Combining.{one, listed_up};
ghost use Rattle.abc_readers.specs.Exprs.{whole_expr};
ghost use Rattle.abc_readers.specs.Processes as spec;
ghost use Rattle.abc_processes.specs.Answers.{ReadsAs, Shortens};

use crate::marks::variable;
use abc_grammar::{Lexeme, Mark};
use abc_phrases::{Parser, Stop};
use abc_pred::{Expr, Name};
use abc_value::{List, NoMemory};

fn push(found: &mut List<Expr>, expr: Expr) -> Result<(), NoMemory>
    ensures { OnOk result (exprs_of found.new ≡ exprs_of found.old ++ expr_of expr ∷ []) }
{
    found.push(expr)
}

/// At least one expression, and the bracket that closes the list.
#[tactic(auto, using(crate::proofs::Steps::list_steps))]
fn exprs_closed(parser: &mut Parser<'_>) -> Result<List<Expr>, Stop>
    ensures reads { ReadsAs exprs_of (listed_up spec.round_closes whole_expr) parser.old result parser.new }
    ensures shorter { Shortens parser.old result parser.new }
{
    let mut found = List::new(parser.alloc);
    let first = parser.whole_expr()?;
    push(&mut found, first)?;
    while let Some((Lexeme::Mark(Mark::Comma), more)) = parser.next() {
        parser.rest = more;
        let expr = parser.whole_expr()?;
        push(&mut found, expr)?;
    }
    parser.close_round()?;
    Ok(found)
}

/// The expressions of an output, behind the bracket that opens them.
pub fn exprs(parser: &mut Parser<'_>) -> Result<List<Expr>, Stop>
    ensures reads { ReadsAs exprs_of spec.any_tuple parser.old result parser.new }
    ensures shorter { Shortens parser.old result parser.new }
{
    match parser.next() {
        Some((Lexeme::Mark(Mark::CloseRound), more)) => {
            parser.rest = more;
            Ok(List::new(parser.alloc))
        }
        _ => exprs_closed(parser),
    }
}

/// At least one variable, and the bracket that closes the list.
#[tactic(auto, using(crate::proofs::Steps::list_steps))]
fn variables_closed(parser: &mut Parser<'_>) -> Result<List<Name>, Stop>
    ensures reads { ReadsAs (λ xs. xs) (listed_up spec.round_closes (one spec.a_variable)) parser.old result parser.new }
    ensures shorter { Shortens parser.old result parser.new }
{
    let mut found = List::new(parser.alloc);
    let first = variable(parser)?;
    found.push(first)?;
    while let Some((Lexeme::Mark(Mark::Comma), more)) = parser.next() {
        parser.rest = more;
        let name = variable(parser)?;
        found.push(name)?;
    }
    parser.close_round()?;
    Ok(found)
}

/// The variables of an input, behind the bracket that opens them.
pub fn variables(parser: &mut Parser<'_>) -> Result<List<Name>, Stop>
    ensures reads { ReadsAs (λ xs. xs) spec.any_variables parser.old result parser.new }
    ensures shorter { Shortens parser.old result parser.new }
{
    match parser.next() {
        Some((Lexeme::Mark(Mark::CloseRound), more)) => {
            parser.rest = more;
            Ok(List::new(parser.alloc))
        }
        _ => variables_closed(parser),
    }
}
