//! Heads: what may stand before a prefix.
ghost use Rattle.std.specs.Prelude.{◌≡◌, ◌<◌, ◌∷◌, length, map, IfOk, IfSome};
ghost use Rattle.abc_pred.specs.Standing.{pred_of};
ghost use Rattle.abc_term.specs.Standing.{process_of};
ghost use Rattle.abc_grammar.specs.declared.lexemes.Lexeme.TheVariants as l;
ghost use Rattle.abc_text.specs.declared.words.Mark.TheVariants as m;
ghost use Rattle.abc_readers.specs.Processes as spec;
ghost use Rattle.abc_processes.specs.Answers.{left, ReadsAs, Shortens, Leaves};
ghost use Rattle.abc_processes.specs.Processes.{head_of, under_all, TakesHead, TakesHeads};

use crate::lists::{exprs, variables};
use crate::marks::{at_sign, open_round};
use crate::terms::boxed;
use crate::updates::dotted_updates;
use abc_grammar::{Keyword, Lexeme, Mark};
use abc_phrases::{Parser, Part, Stop};
use abc_pred::{Expr, Name, Pred};
use abc_term::{After, Process, Update};
use abc_value::{List, NoMemory};
use std::alloc::Global;

/// What may stand before a prefix, up to the prefix.
#[derive(Drop)]
pub enum Head {
    /// `when (g)`
    Guard(Pred),
    /// `(E, ..) @ (p) . U`
    Output(List<Expr>, Pred, List<Update>),
    /// `? (p) ($x, ..) . U`
    Input(Pred, List<Name>, List<Update>),
}

/// A predicate that is read whole.
#[tactic(auto, unfolding(abc_readers::specs::Processes::whole_pred))]
fn whole_pred(parser: &mut Parser<'_>) -> Result<Pred, Stop>
    ensures reads { ReadsAs pred_of spec.whole_pred parser.old result parser.new }
    ensures shorter { Shortens parser.old result parser.new }
{
    match parser.pred()? {
        Part::Whole(pred) => Ok(pred),
        Part::Cut(pred, cause) => {
            drop(pred);
            parser.rest = parser.ahead;
            Err(Stop::Refused(cause))
        }
    }
}

/// A predicate in round brackets.
#[tactic(auto, using(crate::proofs::Steps::close_steps), unfolding(abc_readers::specs::Processes::condition))]
fn condition(parser: &mut Parser<'_>) -> Result<Pred, Stop>
    ensures reads { ReadsAs pred_of spec.condition parser.old result parser.new }
    ensures shorter { Shortens parser.old result parser.new }
{
    open_round(parser)?;
    let pred = whole_pred(parser)?;
    parser.close_round()?;
    Ok(pred)
}

/// An output with its updates, behind the bracket that opens it.
fn output(parser: &mut Parser<'_>) -> Result<Head, Stop>
    ensures reads { ReadsAs head_of (λ ts. spec.output_head (l.Mark m.OpenRound ∷ ts)) parser.old result parser.new }
    ensures shorter { Shortens parser.old result parser.new }
{
    let exprs = exprs(parser)?;
    at_sign(parser)?;
    let to = condition(parser)?;
    let updates = dotted_updates(parser)?;
    Ok(Head::Output(exprs, to, updates))
}

/// An input with its updates, behind the question mark.
fn input(parser: &mut Parser<'_>) -> Result<Head, Stop>
    ensures reads { ReadsAs head_of (λ ts. spec.input_head (l.Mark m.Question ∷ ts)) parser.old result parser.new }
    ensures shorter { Shortens parser.old result parser.new }
{
    let from = condition(parser)?;
    open_round(parser)?;
    let variables = variables(parser)?;
    let updates = dotted_updates(parser)?;
    Ok(Head::Input(from, variables, updates))
}

/// The head that stands here, if one does.
#[tactic(auto, using(crate::proofs::Steps::prefix_steps), unfolding(abc_readers::specs::Processes::guard_head))]
fn next_head(parser: &mut Parser<'_>) -> Result<Option<Head>, Stop>
    ensures reads { TakesHead parser.old result parser.new }
    ensures shorter { IfOk result (λ found. IfSome found (λ h. length (left parser.new) < length (left parser.old))) }
{
    match parser.next() {
        Some((Lexeme::Keyword(Keyword::When), more)) => {
            parser.rest = more;
            let guard = condition(parser)?;
            Ok(Some(Head::Guard(guard)))
        }
        Some((Lexeme::Mark(Mark::OpenRound), more)) => {
            parser.rest = more;
            let head = output(parser)?;
            Ok(Some(head))
        }
        Some((Lexeme::Mark(Mark::Question), more)) => {
            parser.rest = more;
            let head = input(parser)?;
            Ok(Some(head))
        }
        _ => Ok(None),
    }
}

/// The heads that stand here.
#[tactic(auto, using(crate::proofs::Steps::head_steps))]
pub fn heads(parser: &mut Parser<'_>) -> Result<List<Head>, Stop>
    ensures reads { TakesHeads parser.old result parser.new }
    ensures leaves { Leaves parser.old result parser.new }
{
    let mut found = List::new(parser.alloc);
    'heads: loop {
        match next_head(parser)? {
            Some(head) => found.push(head)?,
            None => return Ok(found),
        }
    }
}

/// The process under one head.
fn under(head: Head, then: Box<Process>) -> Process
    ensures { process_of result ≡ spec.under (head_of head) (process_of then.value) }
{
    match head {
        Head::Guard(guard) => Process::When(guard, then),
        Head::Output(exprs, to, updates) => Process::Output(exprs, to, After { updates, then }),
        Head::Input(from, variables, updates) => {
            Process::Input(from, variables, After { updates, then })
        }
    }
}

/// The process under several heads, the first one outermost.
#[tactic(auto, using(crate::proofs::Steps::head_steps))]
pub fn under_all(
    alloc: Global,
    heads: List<Head>,
    inner: Box<Process>,
) -> Result<Box<Process>, NoMemory>
    ensures { IfOk result (λ r. process_of r.value ≡ under_all (map head_of heads) (process_of inner.value)) }
{
    let mut left = heads;
    let mut made = inner;
    while let Some(head) = left.pop() {
        made = boxed(alloc, under(head, made))?;
    }
    Ok(made)
}
