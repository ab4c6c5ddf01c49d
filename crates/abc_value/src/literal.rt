//! The text of a value: written, and read back.
ghost use Rattle.std.specs.Prelude.{◌≡◌, ◌++◌, ◌∷◌, [], OnOk, OnErr, flat_map};
ghost use Rattle.abc_value.specs.Values.{seen};
ghost use Rattle.abc_value.specs.declared.scalar.Scalar.TheVariants.{Number, Text, Truth};
ghost use Rattle.abc_value.specs.Literals.{literal, scalar_text, members_text, next_text, escaped};

use crate::list::List;
use crate::memory::NoMemory;
use crate::scalar::Scalar;
use crate::text::ShortText;
use crate::value::View;
use itoa::Buffer;
use std::alloc::Global;

/// Why `read_value` gave nothing.
#[derive(Clone, Copy, Debug, PartialEq, Eq)]
pub enum ValueRefusal {
    /// No front of the bytes is a literal.
    Bad,
    /// There was no memory.
    NoMemory,
}

/// Appends the literal of a value; after NoMemory `out` is as before.
///
/// A number is decimal with no leading zeros, a text stands in `"` with `"` and `\` escaped by `\`,
/// a truth value is `true` or `false`, Nothing is `none`, and a set has its members in order
/// between `{` and `}`, parted by a comma and a space.
pub fn write_value(alloc: Global, v: View<'_>, out: &mut List<u8>) -> Result<(), NoMemory>
    ensures ok { OnOk result (out.new ≡ out.old ++ literal (seen v.entry)) }
    ensures err { OnErr result (out.new ≡ out.old) }
{
    let mut text = Vec::new(alloc);
    append(v, &mut text)?;
    out.extend_from_slice(text.as_slice())
}

fn append(v: View<'_>, out: &mut Vec<u8>) -> Result<(), NoMemory>
    ensures { OnOk result (out.new.items ≡ out.old.items ++ literal (seen v.entry)) }
{
    match v {
        View::Number(n) => append_number(n, out),
        View::Text(t) => append_text(t, out),
        View::Truth(b) => append_truth(b, out),
        View::Set(s) => {
            out.push(b'{')?;
            append_members(s.members(), out)?;
            out.push(b'}')?;
            Ok(())
        }
        View::Nothing => {
            out.extend_from_slice(b"none")?;
            Ok(())
        }
    }
}

fn append_scalar(x: &Scalar, out: &mut Vec<u8>) -> Result<(), NoMemory>
    ensures { OnOk result (out.new.items ≡ out.old.items ++ scalar_text x.now) }
{
    match x {
        Scalar::Number(n) => append_number(*n, out),
        Scalar::Text(t) => append_text(t, out),
        Scalar::Truth(b) => append_truth(*b, out),
    }
}

fn append_number(n: i64, out: &mut Vec<u8>) -> Result<(), NoMemory>
    ensures { OnOk result (out.new.items ≡ out.old.items ++ scalar_text (Number n)) }
{
    let mut buffer = Buffer::new();
    out.extend_from_slice(buffer.format(n).as_bytes())?;
    Ok(())
}

fn append_text(t: &ShortText, out: &mut Vec<u8>) -> Result<(), NoMemory>
    ensures { OnOk result (out.new.items ≡ out.old.items ++ scalar_text (Text t.now)) }
{
    out.push(b'"')?;
    append_escaped(t.bytes(), out)?;
    out.push(b'"')?;
    Ok(())
}

fn append_escaped(bytes: &[u8], out: &mut Vec<u8>) -> Result<(), NoMemory>
    ensures { OnOk result (out.new.items ≡ out.old.items ++ flat_map escaped bytes.now) }
{
    for byte in bytes {
        append_byte(*byte, out)?;
    }
    Ok(())
}

fn append_byte(byte: u8, out: &mut Vec<u8>) -> Result<(), NoMemory>
    ensures { OnOk result (out.new.items ≡ out.old.items ++ escaped byte) }
{
    if byte == b'"' || byte == b'\\' {
        out.push(b'\\')?;
    }
    out.push(byte)?;
    Ok(())
}

fn append_truth(b: bool, out: &mut Vec<u8>) -> Result<(), NoMemory>
    ensures { OnOk result (out.new.items ≡ out.old.items ++ scalar_text (Truth b)) }
{
    let word = if b { "true" } else { "false" };
    out.extend_from_slice(word.as_bytes())?;
    Ok(())
}

fn append_members(members: &[Scalar], out: &mut Vec<u8>) -> Result<(), NoMemory>
    ensures { OnOk result (out.new.items ≡ out.old.items ++ members_text members.now) }
{
    match members.split_first() {
        None => Ok(()),
        Some((first, others)) => {
            append_scalar(first, out)?;
            append_others(others, out)
        }
    }
}

fn append_others(others: &[Scalar], out: &mut Vec<u8>) -> Result<(), NoMemory>
    ensures { OnOk result (out.new.items ≡ out.old.items ++ flat_map next_text others.now) }
{
    for member in others {
        out.extend_from_slice(b", ")?;
        append_scalar(member, out)?;
    }
    Ok(())
}
