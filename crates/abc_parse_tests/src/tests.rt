//! The predicates at the fronts of texts.
use crate::shown::shown_pred;
use abc_parse::{TextRefusal, parse_pred};
use abc_value::{List, ShortText};
use std::alloc::{AllocError, Global};
use std::process::Abort;
use std::test::Fail;

// In the tables each line is a text, ` => `, and the answer to it: the predicate with the length of the
// front that it is, or the cause and the place of the refusal. The names of a text are a0, a1 and so on,
// t0 behind `this.`, v0 behind a `$`.

/// Fronts of texts, and texts that begin with no predicate.
const FRONTS: &str = "tt or x = => tt 2
tt and not => tt 2
a = b + ( => (a0 = a1) 5
((a = 1)) => Syntax at 4
[[tt] => Syntax at 5
2 = g) -> b => (2 = a0) 5
-> => BadByte at 1
) => Syntax at 0
 => Syntax at 0
tt => tt 2
tt ff => tt 2
tt ! => tt 2
! => BadByte at 0
a =  => Syntax at 4
a = ! => BadByte at 4
";

/// What binds what.
const JOINED: &str = "tt or ff and tt => (tt or (ff and tt)) 15
tt and ff or tt => ((tt and ff) or tt) 15
tt or ff or tt => ((tt or ff) or tt) 14
tt and ff and tt => ((tt and ff) and tt) 16
not not tt => not not tt 10
not tt and ff => (not tt and ff) 13
not [tt and ff] => not (tt and ff) 15
[tt or ff] and tt => ((tt or ff) and tt) 17
[[tt]] => tt 6
a = 1 + 2 * 3 => (a0 = (1 + (2 * 3))) 13
a = 1 - 2 - 3 => (a0 = ((1 - 2) - 3)) 13
a = (1 - 2) * 3 => (a0 = ((1 - 2) * 3)) 15
a * b * c < 1 => (((a0 * a1) * a2) < 1) 13
a + b in c => ((a0 + a1) in a2) 10
not a = 1 or b = 2 => (not (a0 = 1) or (a1 = 2)) 18
";

/// Signs, literals and names.
const ATOMS: &str = "a - -1 = 0 => ((a0 - -1) = 0) 10
- -3 = 0 => Syntax at 2
a - 9223372036854775808 = 0 => WideNumber at 4
a = -9223372036854775808 => (a0 = -9223372036854775808) 24
a = 9223372036854775808 => WideNumber at 4
a in {1, -2} => (a0 in {-2, 1}) 12
{} = {} => ({} = {}) 7
{2, 1, 2} = none => ({1, 2} = none) 16
\"x\" = \"\\\"\\\\\" => (\"x\" = \"\\\"\\\\\") 12
true = false => (true = false) 12
this.a = $in => (t0 = v1) 12
a = a => (a0 = a0) 5
size(s) < free(s) => (size(a0) < free(a0)) 17
size(union(a, b)) = 1 => Syntax at 5
{1, a} = a => Syntax at 4
";

/// Where a text goes wrong.
const REFUSED: &str = "{1, } = a => Syntax at 4
{, 1} = a => Syntax at 1
{1 2} = a => Syntax at 3
this a = 1 => Syntax at 5
this.$a = 1 => Syntax at 5
this.this = 1 => Syntax at 5
size a = 1 => Syntax at 5
size() = 1 => Syntax at 5
a = 1 2 => (a0 = 1) 5
a = b = c => (a0 = a1) 5
a < b < c => (a0 < a1) 5
(a = b) => Syntax at 3
[a] => Syntax at 2
a => Syntax at 1
not => Syntax at 3
";

/// Texts that go wrong behind a predicate.
const CUT: &str = "tt or => tt 2
tt and => tt 2
tt or ff and => (tt or ff) 8
a = b *  => (a0 = a1) 5
a = b + c * => (a0 = (a1 + a2)) 9
a = b + c * (d => (a0 = (a1 + a2)) 9
a = 1 or [tt and => (a0 = 1) 5
tt and [ff => tt 2
not tt or not => not tt 6
a = b - - => (a0 = a1) 5
def = 1 => Syntax at 0
set(a) = 1 => Syntax at 0
tt; => tt 2
tt | ff => tt 2
1 = 1or tt => ((1 = 1) or tt) 10
";

/// What `parse_pred` answers, where no name has a number before.
fn answer(rt: &impl Abort, alloc: Global, text: &[u8]) -> Result<List<u8>, Fail> {
    assert!(rt; text.len() < 100000);
    let mut names = List::new(alloc);
    match parse_pred(alloc, text, &mut names) {
        Ok((pred, size)) => {
            let mut line = shown_pred(&pred, alloc)?;
            let end = format!(in alloc; " {size}")?;
            line.extend_from_slice(end.as_bytes())?;
            Ok(line)
        }
        Err(refusal) => Ok(refused(alloc, refusal)?),
    }
}

fn refused(alloc: Global, refusal: TextRefusal) -> Result<List<u8>, AllocError> {
    let text = match refusal {
        TextRefusal::Refused { place, cause } => format!(in alloc; "{cause:?} at {place}")?,
        TextRefusal::NoMemory => format!(in alloc; "no memory")?,
    };
    let mut line = Vec::new(alloc);
    line.extend_from_slice(text.as_bytes())?;
    Ok(List::from_vec(line))
}

fn answers(rt: &impl Abort, alloc: Global, text: &[u8], wanted: &str) -> Result<(), Fail> {
    let line = answer(rt, alloc, text)?;
    let found = line.as_slice();
    assert!(rt; found == wanted.as_bytes(), "{found:?} for {wanted:?}");
    Ok(())
}

/// Wants the answer of each line of a table.
fn answers_all(rt: &impl Abort, alloc: Global, table: &str) -> Result<(), Fail> {
    for line in table.lines() {
        let (text, wanted) = line.split_once(" => ").ok_or("no answer in a line")?;
        answers(rt, alloc, text.as_bytes(), wanted)?;
    }
    Ok(())
}

#[test]
fn fronts(rt: HostRuntime) -> Result<(), Fail> {
    answers_all(&rt, rt.alloc(), FRONTS)?;
    answers_all(&rt, rt.alloc(), CUT)
}

#[test]
fn forms(rt: HostRuntime) -> Result<(), Fail> {
    answers_all(&rt, rt.alloc(), JOINED)?;
    answers_all(&rt, rt.alloc(), ATOMS)
}

#[test]
fn refusals(rt: HostRuntime) -> Result<(), Fail> {
    answers_all(&rt, rt.alloc(), REFUSED)
}

/// A text: a piece before so many times, the middle, and a piece behind it as many times.
struct Repeated<'a>(u32, &'a str, &'a str, &'a str);

fn text_of(alloc: Global, pieces: Repeated<'_>) -> Result<String, AllocError> {
    let Repeated(count, before, middle, behind) = pieces;
    let mut text = String::new(alloc);
    for _ in 0..count {
        text.push_str(before)?;
    }
    text.push_str(middle)?;
    for _ in 0..count {
        text.push_str(behind)?;
    }
    Ok(text)
}

fn gives(rt: &impl Abort, alloc: Global, pieces: Repeated<'_>, wanted: &str) -> Result<(), Fail> {
    let text = text_of(alloc, pieces)?;
    answers(rt, alloc, text.as_bytes(), wanted)
}

#[test]
fn depth(rt: HostRuntime) -> Result<(), Fail> {
    let alloc = rt.alloc();
    gives(&rt, alloc, Repeated(100, "[", "tt", "]"), "tt 202")?;
    gives(&rt, alloc, Repeated(101, "[", "tt", "]"), "TooDeep at 100")?;
    gives(&rt, alloc, Repeated(100, "(", "a", ")"), "Syntax at 201")?;
    gives(&rt, alloc, Repeated(101, "(", "a", ")"), "TooDeep at 100")?;
    gives(&rt, alloc, Repeated(100, "(", "{1}", ")"), "TooDeep at 100")
}

#[test]
fn written_scalars(rt: HostRuntime) -> Result<(), Fail> {
    let alloc = rt.alloc();
    let most = text_of(alloc, Repeated(255, "1, ", "1} = a", ""))?;
    let whole = format!(in alloc; "{{{most}")?;
    answers(&rt, alloc, whole.as_bytes(), "({1} = a0) 772")?;
    let more = format!(in alloc; "{{1, {most}")?;
    answers(&rt, alloc, more.as_bytes(), "LongSet at 769")
}

/// The length of the front that is a predicate.
fn front_len(rt: &impl Abort, alloc: Global, pieces: Repeated<'_>) -> Result<usize, Fail> {
    let text = text_of(alloc, pieces)?;
    assert!(rt; text.len() < 100000);
    let mut names = List::new(alloc);
    let (_, size) = parse_pred(alloc, text.as_bytes(), &mut names)?;
    Ok(size)
}

#[test]
fn size(rt: HostRuntime) -> Result<(), Fail> {
    let alloc = rt.alloc();
    let most = front_len(&rt, alloc, Repeated(2047, "not ", "tt", ""))?;
    assert_eq!(rt; most, 8190);
    gives(
        &rt,
        alloc,
        Repeated(2048, "not ", "tt", ""),
        "TooLarge at 8192",
    )?;
    let literal = front_len(&rt, alloc, Repeated(2045, "not ", "a in {1, -2}", ""))?;
    assert_eq!(rt; literal, 8192);
    let longer = Repeated(2046, "not ", "a in {1, -2}", "");
    gives(&rt, alloc, longer, "TooLarge at 8189")?;
    let ors = front_len(&rt, alloc, Repeated(1024, "tt or ", "tt", ""))?;
    assert_eq!(rt; ors, 6140);
    Ok(())
}

/// Names go on from those that have numbers, and no name of a refused text or behind a front is added.
#[test]
fn names_go_on(rt: HostRuntime) -> Result<(), Fail> {
    let alloc = rt.alloc();
    let mut names = List::new(alloc);
    let refused = parse_pred(alloc, b"b = (c", &mut names).err();
    assert!(rt; refused.is_some() && names.is_empty());
    let (first, _) = parse_pred(alloc, b"b = $b or x =", &mut names)?;
    assert_eq!(rt; names.len(), 1, "no name behind the front");
    let shown = shown_pred(&first, alloc)?;
    assert_eq!(rt; shown.as_slice(), b"(a0 = v0)".as_slice());
    let (second, _) = parse_pred(alloc, b"a = b and this.c = b", &mut names)?;
    let shown = shown_pred(&second, alloc)?;
    assert_eq!(rt; shown.as_slice(), b"((a1 = a0) and (t2 = a0))".as_slice());
    assert_eq!(rt; names.len(), 3);
    let third = names.get(2).map(|n: &ShortText| n.bytes().len());
    assert_eq!(rt; third, Some(1));
    Ok(())
}
