//! Names, variables and brackets.
ghost use Rattle.std.specs.Prelude.{◌≡◌, ◌++◌, ◌∷◌, OnOk, OnErr, flat_map};
ghost use Rattle.abc_printed.specs.Parts.{word_at};
ghost use Rattle.abc_print.specs.Bytes.{bracket, name_list, next_name, variable_list, next_variable};

use abc_pred::Name;
use abc_value::{List, NoMemory, ShortText};

/// Appends the word of a name, where `names` has each name's word at its number; a name without
/// word appends nothing. After NoMemory `out` is as before.
pub fn print_name(names: &List<ShortText>, name: Name, out: &mut List<u8>) -> Result<(), NoMemory>
    ensures ok { OnOk result (out.new ≡ out.old ++ word_at names.now name) }
    ensures err { OnErr result (out.new ≡ out.old) }
{
    match names.get(name.0 as usize) {
        Some(word) => out.extend_from_slice(word.bytes()),
        None => Ok(()),
    }
}

/// Appends `$` and the word of a variable.
pub(crate) fn print_variable(
    names: &List<ShortText>,
    name: Name,
    out: &mut List<u8>,
) -> Result<(), NoMemory>
    ensures { OnOk result (out.new ≡ out.old ++ 36 ∷ word_at names.now name) }
{
    out.push(b'$')?;
    print_name(names, name, out)
}

/// Appends a bracket where a part of this grade has one, which is where its place asks a higher
/// grade.
pub(crate) fn print_bracket(
    byte: u8,
    grade: u8,
    asked: u8,
    out: &mut List<u8>,
) -> Result<(), NoMemory>
    ensures { OnOk result (out.new ≡ out.old ++ bracket byte grade asked) }
{
    if grade < asked {
        return out.push(byte);
    }
    Ok(())
}

/// Appends names, parted by a comma and a space.
#[tactic(auto, using(crate::proofs::WordBytes::name_lists))]
pub(crate) fn print_names(
    listed: &[Name],
    names: &List<ShortText>,
    out: &mut List<u8>,
) -> Result<(), NoMemory>
    ensures { OnOk result (out.new ≡ out.old ++ name_list names.now listed.now) }
{
    match listed.split_first() {
        None => Ok(()),
        Some((first, others)) => {
            print_name(names, *first, out)?;
            print_other_names(others, names, out)
        }
    }
}

#[tactic(auto, using(std::proofs::lemmas::Grind::common_steps, crate::proofs::WordBytes::name_lists))]
fn print_other_names(
    others: &[Name],
    names: &List<ShortText>,
    out: &mut List<u8>,
) -> Result<(), NoMemory>
    ensures { OnOk result (out.new ≡ out.old ++ flat_map (next_name names.now) others.now) }
{
    for other in others {
        out.extend_from_slice(b", ")?;
        print_name(names, *other, out)?;
    }
    Ok(())
}

/// Appends variables, parted by a comma and a space.
#[tactic(auto, using(crate::proofs::WordBytes::variable_lists))]
pub(crate) fn print_variables(
    listed: &[Name],
    names: &List<ShortText>,
    out: &mut List<u8>,
) -> Result<(), NoMemory>
    ensures { OnOk result (out.new ≡ out.old ++ variable_list names.now listed.now) }
{
    match listed.split_first() {
        None => Ok(()),
        Some((first, others)) => {
            print_variable(names, *first, out)?;
            print_other_variables(others, names, out)
        }
    }
}

#[tactic(auto, using(std::proofs::lemmas::Grind::common_steps, crate::proofs::WordBytes::variable_lists))]
fn print_other_variables(
    others: &[Name],
    names: &List<ShortText>,
    out: &mut List<u8>,
) -> Result<(), NoMemory>
    ensures { OnOk result (out.new ≡ out.old ++ flat_map (next_variable names.now) others.now) }
{
    for other in others {
        out.extend_from_slice(b", ")?;
        print_variable(names, *other, out)?;
    }
    Ok(())
}
