//! Literals, as `abc_value` writes them, but straight into the text.
ghost use Rattle.std.specs.Prelude.{◌≡◌, ◌++◌, OnOk, flat_map};
ghost use Rattle.abc_value.specs.declared.scalar.Scalar.TheVariants.{Number, Text, Truth};
ghost use Rattle.abc_value.specs.Literals.{literal, scalar_text, members_text, next_text, escaped};

use abc_value::{List, NoMemory, Scalar, ShortText, Value};
use itoa::Buffer;

/// Appends the literal of a value. After NoMemory a front of it stands behind what was there.
pub fn print_literal(value: &Value, out: &mut List<u8>) -> Result<(), NoMemory>
    ensures { OnOk result (out.new ≡ out.old ++ literal value.now) }
{
    match value {
        Value::Scalar(scalar) => print_scalar(scalar, out),
        Value::Set(set) => {
            out.push(b'{')?;
            print_members(set.members(), out)?;
            out.push(b'}')
        }
        Value::Nothing => out.extend_from_slice(b"none"),
    }
}

fn print_scalar(scalar: &Scalar, out: &mut List<u8>) -> Result<(), NoMemory>
    ensures { OnOk result (out.new ≡ out.old ++ scalar_text scalar.now) }
{
    match scalar {
        Scalar::Number(number) => print_number(*number, out),
        Scalar::Text(text) => print_text(text, out),
        Scalar::Truth(truth) => print_truth(*truth, out),
    }
}

fn print_number(number: i64, out: &mut List<u8>) -> Result<(), NoMemory>
    ensures { OnOk result (out.new ≡ out.old ++ scalar_text (Number number)) }
{
    let mut buffer = Buffer::new();
    out.extend_from_slice(buffer.format(number).as_bytes())
}

fn print_text(text: &ShortText, out: &mut List<u8>) -> Result<(), NoMemory>
    ensures { OnOk result (out.new ≡ out.old ++ scalar_text (Text text.now)) }
{
    out.push(b'"')?;
    print_escaped(text.bytes(), out)?;
    out.push(b'"')
}

fn print_escaped(bytes: &[u8], out: &mut List<u8>) -> Result<(), NoMemory>
    ensures { OnOk result (out.new ≡ out.old ++ flat_map escaped bytes.now) }
{
    for byte in bytes {
        print_byte(*byte, out)?;
    }
    Ok(())
}

fn print_byte(byte: u8, out: &mut List<u8>) -> Result<(), NoMemory>
    ensures { OnOk result (out.new ≡ out.old ++ escaped byte) }
{
    if byte == b'"' || byte == b'\\' {
        out.push(b'\\')?;
    }
    out.push(byte)
}

fn print_truth(truth: bool, out: &mut List<u8>) -> Result<(), NoMemory>
    ensures { OnOk result (out.new ≡ out.old ++ scalar_text (Truth truth)) }
{
    if truth {
        out.extend_from_slice(b"true")
    } else {
        out.extend_from_slice(b"false")
    }
}

fn print_members(members: &[Scalar], out: &mut List<u8>) -> Result<(), NoMemory>
    ensures { OnOk result (out.new ≡ out.old ++ members_text members.now) }
{
    match members.split_first() {
        None => Ok(()),
        Some((first, others)) => {
            print_scalar(first, out)?;
            print_other_members(others, out)
        }
    }
}

fn print_other_members(others: &[Scalar], out: &mut List<u8>) -> Result<(), NoMemory>
    ensures { OnOk result (out.new ≡ out.old ++ flat_map next_text others.now) }
{
    for other in others {
        out.extend_from_slice(b", ")?;
        print_scalar(other, out)?;
    }
    Ok(())
}
