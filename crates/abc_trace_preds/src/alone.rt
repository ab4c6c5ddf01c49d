//! A text that is to be one predicate, its words numbered as they are met.
ghost use Rattle.std.specs.Prelude.{◌≡◌, ◌<◌, ◌^◌, ◌↔◌, [], length, IsTrue, IfOk};
ghost use Rattle.abc_pred.specs.Standing.{pred_of};
ghost use Rattle.abc_grammar.specs.Fronts.{IsLongest};
ghost use Rattle.abc_lexemes.specs.Lexed.{IsLexed};
ghost use Rattle.abc_printed.specs.Printed.{pred_text};
ghost use Rattle.abc_trace_preds.specs.Alone.{IsWhole, IsAlone};

use crate::closed::is_closed;
use abc_lexemes::{Lexed, new_names, read_lexemes};
use abc_lexer::Names;
use abc_parse::{Front, front_of};
use abc_pred::Pred;
use abc_print::append_pred;
use abc_value::{List, NoMemory, ShortText};
use std::alloc::Global;

/// A predicate with the words that it names, each at its number.
#[derive(Drop)]
pub(crate) struct Alone<'t> {
    pub(crate) pred: Pred,
    pub(crate) names: Names<'t>,
}

/// Whether these bytes are the canonical text of the predicate.
fn is_print(
    alloc: Global,
    pred: &Pred,
    names: &List<ShortText>,
    bytes: &[u8],
) -> Result<bool, NoMemory>
    ensures { IfOk result (λ b. IsTrue b ↔ (pred_text names.now (pred_of pred.now) ≡ bytes.now)) }
{
    let mut text = List::new(alloc);
    append_pred(pred, names, &mut text)?;
    Ok(text.as_slice() == bytes)
}

/// Whether all the lexemes are this predicate, it is closed, and the text is its canonical one.
fn is_whole(
    alloc: Global,
    bytes: &[u8],
    lexed: &Lexed<'_>,
    count: usize,
    pred: &Pred,
) -> Result<bool, NoMemory>
    requires lexed { IsLexed [] bytes.now lexed.now }
    requires front { IsLongest lexed.now.lexemes count (pred_of pred.now) }
    ensures { IfOk result (λ b. IsTrue b ↔ IsWhole bytes.now lexed.now count (pred_of pred.now)) }
{
    if lexed.fault.is_some() {
        return Ok(false);
    }
    if count != lexed.lexemes.len() {
        return Ok(false);
    }
    if !is_closed(pred) {
        return Ok(false);
    }
    let names = new_names(alloc, &[], bytes, lexed, count)?;
    is_print(alloc, pred, &names, bytes)
}

/// The predicate whose text these bytes are; None where there is none.
pub(crate) fn read_alone<'t>(alloc: Global, bytes: &'t [u8]) -> Result<Option<Alone<'t>>, NoMemory>
    requires { length bytes.now < 2 ^ 32 }
    ensures { IfOk result (λ a. IsAlone bytes.now a) }
{
    let lexed = read_lexemes(alloc, &[], bytes)?;
    match front_of(alloc, lexed.lexemes.as_slice())? {
        Front::Pred(pred, count) => {
            if !is_whole(alloc, bytes, &lexed, count, &pred)? {
                return Ok(None);
            }
            let Lexed { names, .. } = lexed;
            Ok(Some(Alone { pred, names }))
        }
        Front::Refused(_, _) => Ok(None),
        Front::Ends => Ok(None),
    }
}
