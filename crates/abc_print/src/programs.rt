//! Programs.
ghost use Rattle.std.specs.Prelude.{◌≡◌, ◌++◌, OnOk, IfOk, flat_map};
ghost use Rattle.abc_term.specs.Standing.{process_of};
ghost use Rattle.abc_grammar.specs.Plain.{plain_component};
ghost use Rattle.abc_printed.specs.Printed.{program_text};
ghost use Rattle.abc_print.specs.Bytes.{definition_bytes, initial_bytes, opening_bytes, closing_bytes, component_bytes, shown_bytes};

use crate::literals::print_literal;
use crate::processes::print_process;
use crate::words::{print_name, print_names};
use abc_pred::Name;
use abc_term::{Component, Definition, Process, Program};
use abc_value::{List, NoMemory, ShortText, Value};
use std::alloc::Global;

/// Appends `def NAME = PROC;` and the end of the line.
#[tactic(auto, using(crate::proofs::ProgramBytes::program_forms))]
fn print_definition(
    definition: &Definition,
    names: &List<ShortText>,
    out: &mut List<u8>,
) -> Result<(), NoMemory>
    ensures { OnOk result (out.new ≡ out.old ++ definition_bytes names.now (definition.now.name, process_of definition.now.body)) }
{
    out.extend_from_slice(b"def ")?;
    print_name(names, definition.name, out)?;
    out.extend_from_slice(b" = ")?;
    print_process(&definition.body, 0, names, out)?;
    out.extend_from_slice(b";\n")
}

fn print_definitions(
    definitions: &[Definition],
    names: &List<ShortText>,
    out: &mut List<u8>,
) -> Result<(), NoMemory>
    ensures { OnOk result (out.new ≡ out.old ++ flat_map (λ d. definition_bytes names.now (d.name, process_of d.body)) definitions.now) }
{
    for definition in definitions {
        print_definition(definition, names, out)?;
    }
    Ok(())
}

/// Appends an attribute with its first value, in a line of its own.
#[tactic(auto, using(crate::proofs::ProgramBytes::program_forms))]
fn print_initial(
    initial: &(Name, Value),
    names: &List<ShortText>,
    out: &mut List<u8>,
) -> Result<(), NoMemory>
    ensures { OnOk result (out.new ≡ out.old ++ initial_bytes names.now initial.now) }
{
    let (name, value) = initial;
    out.extend_from_slice(b"  ")?;
    print_name(names, *name, out)?;
    out.extend_from_slice(b" = ")?;
    print_literal(value, out)?;
    out.extend_from_slice(b";\n")
}

fn print_all_initial(
    entries: &[(Name, Value)],
    names: &List<ShortText>,
    out: &mut List<u8>,
) -> Result<(), NoMemory>
    ensures { OnOk result (out.new ≡ out.old ++ flat_map (initial_bytes names.now) entries.now) }
{
    for entry in entries {
        print_initial(entry, names, out)?;
    }
    Ok(())
}

/// Appends a space and the names that are shown, or nothing where none is.
#[tactic(auto, using(crate::proofs::ProgramBytes::program_forms))]
fn print_shown(shown: &[Name], names: &List<ShortText>, out: &mut List<u8>) -> Result<(), NoMemory>
    ensures { OnOk result (out.new ≡ out.old ++ shown_bytes names.now shown.now) }
{
    match shown {
        [] => Ok(()),
        shown => {
            out.push(b' ')?;
            print_names(shown, names, out)
        }
    }
}

/// Appends the first line of a component and those of its attributes.
#[tactic(auto, using(crate::proofs::ProgramBytes::program_forms))]
fn print_opening(
    component: &Component,
    names: &List<ShortText>,
    out: &mut List<u8>,
) -> Result<(), NoMemory>
    ensures { OnOk result (out.new ≡ out.old ++ opening_bytes names.now (plain_component component.now)) }
{
    out.extend_from_slice(b"comp ")?;
    print_name(names, component.name, out)?;
    out.extend_from_slice(b" {\n")?;
    print_all_initial(component.initial.as_slice(), names, out)
}

/// Appends the last lines of a component: what it shows and what it runs.
#[tactic(auto, using(crate::proofs::ProgramBytes::program_forms))]
fn print_closing(
    shown: &[Name],
    process: &Process,
    names: &List<ShortText>,
    out: &mut List<u8>,
) -> Result<(), NoMemory>
    ensures { OnOk result (out.new ≡ out.old ++ closing_bytes names.now shown.now (process_of process.now)) }
{
    out.extend_from_slice(b"  show")?;
    print_shown(shown, names, out)?;
    out.extend_from_slice(b";\n  run ")?;
    print_process(process, 0, names, out)?;
    out.extend_from_slice(b";\n}\n")
}

/// Appends a component.
#[tactic(auto, using(crate::proofs::ProgramBytes::program_forms))]
fn print_component(
    component: &Component,
    names: &List<ShortText>,
    out: &mut List<u8>,
) -> Result<(), NoMemory>
    ensures { OnOk result (out.new ≡ out.old ++ component_bytes names.now (plain_component component.now)) }
{
    print_opening(component, names, out)?;
    print_closing(component.show.as_slice(), &component.run, names, out)
}

fn print_components(
    components: &[Component],
    names: &List<ShortText>,
    out: &mut List<u8>,
) -> Result<(), NoMemory>
    ensures { OnOk result (out.new ≡ out.old ++ flat_map (λ c. component_bytes names.now (plain_component c)) components.now) }
{
    for component in components {
        print_component(component, names, out)?;
    }
    Ok(())
}

/// The canonical text of a program.
#[tactic(auto, using(crate::proofs::ProgramBytes::program_forms))]
pub fn print_program(alloc: Global, program: &Program) -> Result<List<u8>, NoMemory>
    ensures { IfOk result (λ text. text ≡ program_text program.now) }
{
    let mut text = List::new(alloc);
    text.extend_from_slice(b"abc 1;\n")?;
    print_definitions(program.definitions.as_slice(), &program.names, &mut text)?;
    print_components(program.components.as_slice(), &program.names, &mut text)?;
    Ok(text)
}
