//! The lines of a trace, each written by a function of its own, so that whoever makes a run can
//! append a step's line as the step is made. After NoMemory a front of the line stands behind what
//! was there.
ghost use Rattle.std.specs.Prelude.{◌≡◌, ◌++◌, flat_map, decimal, OnOk};
ghost use Rattle.abc_value.specs.Literals.{literal};
ghost use Rattle.abc_pred.specs.Standing.{pred_of};
ghost use Rattle.abc_trace.specs.declared.trace.Head.TheVariants.{Solo, Net};
ghost use Rattle.abc_trace.specs.Lines as text;
ghost use Rattle.abc_trace.specs.Texts.{line_text, said_tail};

use crate::numbers::write_number;
use crate::trace::{Head, Line, Said};
use abc_pred::Name;
use abc_print::{append_pred, print_literal, print_name};
use abc_shape::Shape;
use abc_value::{List, NoMemory, ShortText, Value};

/// Appends the first line.
pub fn write_head(head: Head, out: &mut List<u8>) -> Result<(), NoMemory>
    ensures { OnOk result (out.new ≡ out.old ++ text.head_text head) }
{
    match head {
        Head::Solo { limit, pick } => write_solo_head(u64::from(limit), pick, out),
        Head::Net {
            shape,
            limit,
            nodes,
            pick,
        } => write_net_head(shape, u64::from(limit), u64::from(nodes), pick, out),
    }
}

fn write_solo_head(limit: u64, pick: u64, out: &mut List<u8>) -> Result<(), NoMemory>
    ensures { OnOk result (out.new ≡ out.old ++ text.head_text (Solo limit pick)) }
{
    out.extend_from_slice(b"abc-trace 1 solo ")?;
    write_number(limit, out)?;
    out.push(b' ')?;
    write_number(pick, out)?;
    out.push(b'\n')
}

fn write_net_head(
    shape: Shape,
    limit: u64,
    nodes: u64,
    pick: u64,
    out: &mut List<u8>,
) -> Result<(), NoMemory>
    ensures { OnOk result (out.new ≡ out.old ++ text.head_text (Net shape limit nodes pick)) }
{
    out.extend_from_slice(b"abc-trace 1 ")?;
    out.extend_from_slice(shape_word(shape))?;
    out.push(b' ')?;
    write_three(limit, nodes, pick, out)?;
    out.push(b'\n')
}

/// Appends three numbers, parted by spaces.
fn write_three(first: u64, second: u64, third: u64, out: &mut List<u8>) -> Result<(), NoMemory>
    ensures { OnOk result (out.new ≡ out.old
        ++ text.spaced (decimal first) (text.spaced (decimal second) (decimal third))) }
{
    write_number(first, out)?;
    out.push(b' ')?;
    write_number(second, out)?;
    out.push(b' ')?;
    write_number(third, out)
}

fn shape_word(shape: Shape) -> &'static [u8]
    ensures { result.now ≡ text.shape_word shape }
{
    match shape {
        Shape::Cluster => b"cluster",
        Shape::Ring => b"ring",
        Shape::Tree => b"tree",
    }
}

/// Appends the line of a number.
pub fn write_line(
    names: &List<ShortText>,
    number: u64,
    line: &Line,
    out: &mut List<u8>,
) -> Result<(), NoMemory>
    ensures { OnOk result (out.new ≡ out.old ++ line_text names.now number line.now) }
{
    write_number(number, out)?;
    out.push(b' ')?;
    print_name(names, line.sender, out)?;
    match &line.said {
        Some(said) => write_said(names, said, out),
        None => out.extend_from_slice(b" -\n"),
    }
}

/// From the colon behind the sender on.
fn write_said(names: &List<ShortText>, said: &Said, out: &mut List<u8>) -> Result<(), NoMemory>
    ensures { OnOk result (out.new ≡ out.old ++ said_tail names.now said.now) }
{
    out.push(b':')?;
    write_number(u64::from(said.place), out)?;
    out.push(b' ')?;
    write_multicast(names, said, out)?;
    out.push(b'\n')
}

/// Appends the values, the predicate and those that heard.
fn write_multicast(names: &List<ShortText>, said: &Said, out: &mut List<u8>) -> Result<(), NoMemory>
    ensures { OnOk result (out.new ≡ out.old
        ++ text.multicast_text names.now said.now.values (pred_of said.now.pred) said.now.heard) }
{
    out.push(b'(')?;
    write_values(said.values.as_slice(), out)?;
    out.extend_from_slice(b") @ (")?;
    append_pred(&said.pred, names, out)?;
    out.extend_from_slice(b") -> ")?;
    write_heard(names, said.heard.as_slice(), out)
}

/// Appends values, parted by a comma and a space.
fn write_values(values: &[Value], out: &mut List<u8>) -> Result<(), NoMemory>
    ensures { OnOk result (out.new ≡ out.old ++ text.parted literal values.now) }
{
    match values.split_first() {
        None => Ok(()),
        Some((first, others)) => {
            print_literal(first, out)?;
            write_other_values(others, out)
        }
    }
}

fn write_other_values(others: &[Value], out: &mut List<u8>) -> Result<(), NoMemory>
    ensures { OnOk result (out.new ≡ out.old ++ flat_map (text.behind_comma literal) others.now) }
{
    for other in others {
        out.extend_from_slice(b", ")?;
        print_literal(other, out)?;
    }
    Ok(())
}

/// Appends those that heard, parted by a comma and a space, or a dash where nobody did.
fn write_heard(
    names: &List<ShortText>,
    heard: &[(Name, u32)],
    out: &mut List<u8>,
) -> Result<(), NoMemory>
    ensures { OnOk result (out.new ≡ out.old ++ text.heard_text names.now heard.now) }
{
    match heard.split_first() {
        None => out.push(b'-'),
        Some((first, others)) => {
            write_place(names, *first, out)?;
            write_other_places(names, others, out)
        }
    }
}

fn write_other_places(
    names: &List<ShortText>,
    others: &[(Name, u32)],
    out: &mut List<u8>,
) -> Result<(), NoMemory>
    ensures { OnOk result (out.new ≡ out.old
        ++ flat_map (text.behind_comma (text.place_text names.now)) others.now) }
{
    for other in others {
        out.extend_from_slice(b", ")?;
        write_place(names, *other, out)?;
    }
    Ok(())
}

/// Appends a name and a place, with a colon between them.
fn write_place(
    names: &List<ShortText>,
    hearer: (Name, u32),
    out: &mut List<u8>,
) -> Result<(), NoMemory>
    ensures { OnOk result (out.new ≡ out.old ++ text.place_text names.now hearer) }
{
    print_name(names, hearer.0, out)?;
    out.push(b':')?;
    write_number(u64::from(hearer.1), out)
}

/// Appends the line of a component's attributes.
pub fn write_env(
    names: &List<ShortText>,
    component: Name,
    entries: &[(Name, Value)],
    out: &mut List<u8>,
) -> Result<(), NoMemory>
    ensures { OnOk result (out.new ≡ out.old ++ text.env_text names.now component entries.now) }
{
    out.extend_from_slice(b"env ")?;
    print_name(names, component, out)?;
    out.push(b' ')?;
    write_entries(names, entries, out)?;
    out.push(b'\n')
}

/// Appends attributes and their values in `{` and `}`.
fn write_entries(
    names: &List<ShortText>,
    entries: &[(Name, Value)],
    out: &mut List<u8>,
) -> Result<(), NoMemory>
    ensures { OnOk result (out.new ≡ out.old ++ text.entries_text names.now entries.now) }
{
    match entries.split_first() {
        None => out.extend_from_slice(b"{}"),
        Some(_) => {
            out.extend_from_slice(b"{ ")?;
            write_each_entry(names, entries, out)?;
            out.push(b'}')
        }
    }
}

fn write_each_entry(
    names: &List<ShortText>,
    entries: &[(Name, Value)],
    out: &mut List<u8>,
) -> Result<(), NoMemory>
    ensures { OnOk result (out.new ≡ out.old ++ flat_map (text.entry_text names.now) entries.now) }
{
    for entry in entries {
        write_entry(names, entry, out)?;
    }
    Ok(())
}

fn write_entry(
    names: &List<ShortText>,
    entry: &(Name, Value),
    out: &mut List<u8>,
) -> Result<(), NoMemory>
    ensures { OnOk result (out.new ≡ out.old ++ text.entry_text names.now entry.now) }
{
    print_name(names, entry.0, out)?;
    out.extend_from_slice(b" = ")?;
    print_literal(&entry.1, out)?;
    out.extend_from_slice(b"; ")
}

/// Appends the line of a node, counted from 0, and how many packets it handled.
pub fn write_node(node: u64, handled: u64, out: &mut List<u8>) -> Result<(), NoMemory>
    ensures { OnOk result (out.new ≡ out.old ++ text.node_text node handled) }
{
    out.extend_from_slice(b"node ")?;
    write_number(node, out)?;
    out.push(b' ')?;
    write_number(handled, out)?;
    out.push(b'\n')
}

/// Appends the last line, after so many numbers.
pub fn write_end(limit: u64, count: u64, out: &mut List<u8>) -> Result<(), NoMemory>
    ensures { OnOk result (out.new ≡ out.old ++ text.end_text limit count) }
{
    if count == limit {
        out.extend_from_slice(b"limit ")?;
    } else {
        out.extend_from_slice(b"quiet ")?;
    }
    write_number(count, out)?;
    out.push(b'\n')
}
