//! The line of a step.
ghost use Rattle.std.specs.Prelude.{◌≡◌, ℕ, IfOk};
ghost use Rattle.abc_system.specs.Systems.{row_of};
ghost use Rattle.abc_trace.specs.Texts.{line_text};
ghost use Rattle.abc_run_text.specs.TextOf.{name_at, hearers, row_text};

use abc_pred::Name;
use abc_system::StepRow;
use abc_term::Program;
use abc_trace::{Line, Said};
use abc_value::{List, NoMemory};
use std::alloc::Global;

/// The name of a component; that of number 0 where there is none.
pub fn name_at(program: &Program, component: u32) -> Name
    ensures { result ≡ name_at program.now component }
{
    match program.components.get(component as usize) {
        Some(component) => component.name,
        None => Name(0),
    }
}

/// Those that heard, each by its name with the place of its input.
pub fn hearers(
    alloc: Global,
    program: &Program,
    heard: &[(u32, u32)],
) -> Result<List<(Name, u32)>, NoMemory>
    ensures { IfOk result (λ hs. hs ≡ hearers program.now heard.now) }
{
    let mut names = List::new(alloc);
    for hearer in heard {
        names.push((name_at(program, hearer.0), hearer.1))?;
    }
    Ok(names)
}

/// The line of a step, which keeps the row's values and predicate.
pub fn line_of(alloc: Global, program: &Program, row: StepRow) -> Result<Line, NoMemory>
    ensures { IfOk result (λ l. (n : ℕ) →
        line_text program.now.names n l ≡ row_text program.now n (row_of row)) }
{
    let StepRow {
        sender,
        spoke,
        heard,
    } = row;
    let sender = name_at(program, sender);
    let heard = hearers(alloc, program, heard.as_slice())?;
    match spoke {
        None => Ok(Line { sender, said: None }),
        Some((place, label)) => {
            let said = Said {
                place,
                values: label.values,
                pred: label.pred,
                heard,
            };
            Ok(Line {
                sender,
                said: Some(said),
            })
        }
    }
}
