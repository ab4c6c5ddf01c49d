//! Processes.
ghost use Rattle.std.specs.Prelude.{◌≡◌, ◌≤◌, ◌++◌, OnOk, flat_map};
ghost use Rattle.abc_pred.specs.Standing.{expr_of, pred_of};
ghost use Rattle.abc_term.specs.Standing.{process_of, exprs_of};
ghost use Rattle.abc_print.specs.Bytes.{update_bytes, output_bytes, input_bytes, process_bytes};

use crate::terms::{print_expr, print_exprs, print_guard};
use crate::words::{print_bracket, print_name, print_variables};
use abc_pred::{Expr, Name, Pred};
use abc_term::{Process, Update};
use abc_value::{List, NoMemory, ShortText};

/// Appends `[name := expression]` and a space.
#[tactic(auto, using(crate::proofs::ProcessBytes::update_forms))]
fn print_update(
    update: &Update,
    names: &List<ShortText>,
    out: &mut List<u8>,
) -> Result<(), NoMemory>
    ensures { OnOk result (out.new ≡ out.old ++ update_bytes names.now (update.now.name, expr_of update.now.value)) }
{
    out.push(b'[')?;
    print_name(names, update.name, out)?;
    out.extend_from_slice(b" := ")?;
    print_expr(&update.value, names, out)?;
    out.extend_from_slice(b"] ")
}

fn print_updates(
    updates: &[Update],
    names: &List<ShortText>,
    out: &mut List<u8>,
) -> Result<(), NoMemory>
    ensures { OnOk result (out.new ≡ out.old ++ flat_map (λ u. update_bytes names.now (u.name, expr_of u.value)) updates.now) }
{
    for update in updates {
        print_update(update, names, out)?;
    }
    Ok(())
}

/// Appends an output up to its point: `(E, E) @ (PRED) . `.
#[tactic(auto, using(crate::proofs::ProcessBytes::head_forms))]
fn print_output(
    exprs: &[Expr],
    pred: &Pred,
    names: &List<ShortText>,
    out: &mut List<u8>,
) -> Result<(), NoMemory>
    ensures { OnOk result (out.new ≡ out.old ++ output_bytes names.now (exprs_of exprs.now) (pred_of pred.now)) }
{
    out.push(b'(')?;
    print_exprs(exprs, names, out)?;
    out.extend_from_slice(b") @ (")?;
    print_guard(pred, 0, names, out)?;
    out.extend_from_slice(b") . ")
}

/// Appends an input up to its point: `? (PRED) ($x, $y) . `.
#[tactic(auto, using(crate::proofs::ProcessBytes::head_forms))]
fn print_input(
    pred: &Pred,
    variables: &[Name],
    names: &List<ShortText>,
    out: &mut List<u8>,
) -> Result<(), NoMemory>
    ensures { OnOk result (out.new ≡ out.old ++ input_bytes names.now (pred_of pred.now) variables.now) }
{
    out.extend_from_slice(b"? (")?;
    print_guard(pred, 0, names, out)?;
    out.extend_from_slice(b") (")?;
    print_variables(variables, names, out)?;
    out.extend_from_slice(b") . ")
}

/// Appends a process, in `{` and `}` where its grade is below `asked`. `|` has grade 0, `+` 1, all
/// others 2.
#[tactic(auto, using(crate::proofs::ProcessBytes::process_forms))]
pub(crate) fn print_process(
    process: &Process,
    asked: u8,
    names: &List<ShortText>,
    out: &mut List<u8>,
) -> Result<(), NoMemory>
    requires { asked ≤ 2 }
    ensures { OnOk result (out.new ≡ out.old ++ process_bytes names.now asked (process_of process.now)) }
{
    match process {
        Process::Nil => out.push(b'0'),
        Process::Call(name) => print_name(names, *name, out),
        Process::Output(exprs, pred, after) => {
            print_output(exprs.as_slice(), pred, names, out)?;
            print_updates(after.updates.as_slice(), names, out)?;
            print_process(&after.then, 2, names, out)
        }
        Process::Input(pred, variables, after) => {
            print_input(pred, variables.as_slice(), names, out)?;
            print_updates(after.updates.as_slice(), names, out)?;
            print_process(&after.then, 2, names, out)
        }
        Process::When(guard, then) => {
            out.extend_from_slice(b"when (")?;
            print_guard(guard, 0, names, out)?;
            out.extend_from_slice(b") ")?;
            print_process(then, 2, names, out)
        }
        Process::Choice(left, right) => {
            print_bracket(b'{', 1, asked, out)?;
            print_process(left, 1, names, out)?;
            out.extend_from_slice(b" + ")?;
            print_process(right, 2, names, out)?;
            print_bracket(b'}', 1, asked, out)
        }
        Process::Par(left, right) => {
            print_bracket(b'{', 0, asked, out)?;
            print_process(left, 0, names, out)?;
            out.extend_from_slice(b" | ")?;
            print_process(right, 1, names, out)?;
            print_bracket(b'}', 0, asked, out)
        }
    }
}
