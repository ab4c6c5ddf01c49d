//! Reading a value.
ghost use Rattle.std.specs.Prelude.{◌≡◌, ◌≢◌, ◌≤◌, ◌↔◌, [], ◌∷◌, true, false, length, drop, slice_index, IfOk, IsErrOf, MatchBool};
ghost use Rattle.abc_value.specs.Literals.{BeginsWith, HasLiteral, HasNoLiteral, IsLongest, ReadsValue};
ghost use Rattle.abc_value.specs.Reading.{IsStep};

use crate::bytes::{begins_with, first_byte};
use crate::literal::ValueRefusal;
use crate::memory::NoMemory;
use crate::scalar::Scalar;
use crate::scalar_read::{read_scalar, read_scalar_at};
use crate::set::{SetValue, may_follow};
use crate::value::Value;
use std::alloc::Global;

/// What stands next in a set.
#[derive(Clone, Copy, Debug)]
enum Step {
    /// The closing bracket.
    Close,
    /// A member, and in how many bytes it is written.
    Member(Scalar, usize),
    /// Nothing that a set may have.
    Wrong,
}

/// The value of the longest front of the bytes that is a literal as `write_value` writes it, and
/// that front's length.
///
/// Bad comes exactly where no front is one, which is known before any memory is asked for. Memory
/// is wanted only for a set, whose literal begins with `{`.
pub fn read_value(alloc: Global, bytes: &[u8]) -> Result<(Value, usize), ValueRefusal>
    ensures ok { IfOk result (λ r. IsLongest bytes.now r.0 r.1) }
    ensures bad { IsErrOf result ValueRefusal.Bad ↔ HasNoLiteral bytes.now }
    ensures wanted { IsErrOf result ValueRefusal.NoMemory → slice_index bytes.now 0 ≡ 123 }
{
    if first_byte(bytes) == b'{' {
        return read_set(alloc, bytes);
    }
    read_plain(bytes).ok_or(ValueRefusal::Bad)
}

/// Reads what is no set.
fn read_plain(bytes: &[u8]) -> Option<(Value, usize)>
    requires { slice_index bytes.now 0 ≢ 123 }
    ensures { ReadsValue bytes.now result }
{
    if first_byte(bytes) == b'n' {
        read_none(bytes)
    } else {
        read_one(bytes)
    }
}

fn read_none(bytes: &[u8]) -> Option<(Value, usize)>
    requires { slice_index bytes.now 0 ≡ 110 }
    ensures { ReadsValue bytes.now result }
{
    if begins_with(bytes, b"none") {
        Some((Value::Nothing, 4))
    } else {
        None
    }
}

fn read_one(bytes: &[u8]) -> Option<(Value, usize)>
    requires set { slice_index bytes.now 0 ≢ 123 }
    requires none { slice_index bytes.now 0 ≢ 110 }
    ensures { ReadsValue bytes.now result }
{
    match read_scalar(bytes) {
        Some((x, n)) => Some((Value::Scalar(x), n)),
        None => None,
    }
}

fn read_set(alloc: Global, bytes: &[u8]) -> Result<(Value, usize), ValueRefusal>
    requires { slice_index bytes.now 0 ≡ 123 }
    ensures ok { IfOk result (λ r. IsLongest bytes.now r.0 r.1) }
    ensures bad { IsErrOf result ValueRefusal.Bad ↔ HasNoLiteral bytes.now }
{
    if !has_set(bytes) {
        return Err(ValueRefusal::Bad);
    }
    match set_at_front(alloc, bytes) {
        Ok(read) => Ok(read),
        Err(NoMemory) => Err(ValueRefusal::NoMemory),
    }
}

/// Whether a front of the bytes is the literal of a set. It takes no memory: of the members that
/// it passes it keeps their number and the last.
fn has_set(bytes: &[u8]) -> bool
    requires { slice_index bytes.now 0 ≡ 123 }
    ensures { MatchBool result (HasLiteral bytes.now) (HasNoLiteral bytes.now) }
{
    let mut count = 0;
    let mut last = None;
    let mut at = 1;
    'members: loop {
        match step_at(bytes, at, count == 0) {
            Step::Close => return true,
            Step::Member(x, width) => {
                if !may_follow(count, last.as_ref(), &x) {
                    return false;
                }
                count += 1;
                last = Some(x);
                at += width;
            }
            Step::Wrong => return false,
        }
    }
}

/// The set whose literal is a front of the bytes, and that front's length.
fn set_at_front(alloc: Global, bytes: &[u8]) -> Result<(Value, usize), NoMemory>
    requires first { slice_index bytes.now 0 ≡ 123 }
    requires literal { HasLiteral bytes.now }
    ensures { IfOk result (λ r. IsLongest bytes.now r.0 r.1) }
{
    let mut set = SetValue::empty(alloc);
    let mut at = 1;
    'members: loop {
        match step_at(bytes, at, set.is_empty()) {
            Step::Close => return Ok((Value::Set(set), at + 1)),
            Step::Member(x, width) => {
                set.append(x)?;
                at += width;
            }
            Step::Wrong => unreachable!(),
        }
    }
}

fn step_at(bytes: &[u8], at: usize, first: bool) -> Step
    requires { at ≤ length bytes.now }
    ensures { IsStep first (drop at bytes.now) result }
{
    let rest = &bytes[at..];
    if first {
        first_step(rest)
    } else {
        next_step(rest)
    }
}

fn first_step(bytes: &[u8]) -> Step
    ensures { IsStep true bytes.now result }
{
    if first_byte(bytes) == b'}' {
        return Step::Close;
    }
    match read_scalar(bytes) {
        Some((x, n)) => Step::Member(x, n),
        None => Step::Wrong,
    }
}

fn next_step(bytes: &[u8]) -> Step
    ensures { IsStep false bytes.now result }
{
    if first_byte(bytes) == b'}' {
        return Step::Close;
    }
    if begins_with(bytes, b", ") {
        member_step(bytes)
    } else {
        Step::Wrong
    }
}

fn member_step(bytes: &[u8]) -> Step
    requires { BeginsWith bytes.now (44 ∷ (32 ∷ [])) }
    ensures { IsStep false bytes.now result }
{
    match read_scalar_at(bytes, 2) {
        Some((x, n)) => Step::Member(x, n + 2),
        None => Step::Wrong,
    }
}
