ghost use Rattle.std.specs.Prelude.{All};
ghost use Rattle.abc_text.specs.Meanings.{StandsIn};

use abc_lexer::{
    Cause, Fault, Scanned, TextRefusal, Token, TokenKind, named, names_of, number, scan, spelling,
    text, tokens,
};
use std::alloc::{AllocError, Global};
use std::process::Abort;
use std::test::Fail;

// In the tables each line is a text, ` => `, and its tokens: each by the letter of its kind, its place and
// its length. The first bad token comes last, by its cause and its place. Where there is none, `nothing`
// stands. The byte 1 stands for a line feed in the text.

/// Blanks, comments and symbols.
const SYMBOLS: &str = " => nothing
 \t\r\x01 => nothing
# c => nothing
# c\x01 => nothing
# é\x00\x01; => S6.1
# => nothing
##\x01#\x01 => nothing
abc 1; => W0.3 N4.1 S5.1
(){}[];,.@?+-*|<= => S0.1 S1.1 S2.1 S3.1 S4.1 S5.1 S6.1 S7.1 S8.1 S9.1 S10.1 S11.1 S12.1 S13.1 S14.1 S15.1 S16.1
:= => S0.2
: => BadByte at 0
: = => BadByte at 0
a:=b => W0.1 S1.2 W3.1
a:b => W0.1 BadByte at 1
=: => S0.1 BadByte at 1
";

/// Words and variables.
const WORDS: &str = "$x => V0.2
$in => V0.3
$1 => BadByte at 0
$ => BadByte at 0
$ x => BadByte at 0
$_ => BadByte at 0
x$y => W0.1 V1.2
_ => BadByte at 0
a_1 b => W0.3 W4.1
1or => N0.1 W1.2
0x => N0.1 W1.1
abcdefghijklmnopqrstuvwxyz012345 => W0.32
abcdefghijklmnopqrstuvwxyz0123456 => LongName at 0
$abcdefghijklmnopqrstuvwxyz012345 => V0.33
$abcdefghijklmnopqrstuvwxyz0123456 => LongName at 0
; abcdefghijklmnopqrstuvwxyz0123456 => S0.1 LongName at 2
";

/// Texts.
const TEXTS: &str = "\"\" => T0.2
\"a b\"c => T0.5 W5.1
\"\\\"\" => T0.4
\"\\\\\" => T0.4
\"\\n\" => BadText at 0
\"a => BadText at 0
\" => BadText at 0
\"\\ => BadText at 0
\"a\tb\" => BadText at 0
\"a\x7f\" => BadText at 0
\"é\" => BadText at 0
\"a\x01\" => BadText at 0
\"\\\" => BadText at 0
\" ~\" => T0.4
1 \" => N0.1 BadText at 2
\"aaaaaaaaaaaaaaaaaaaaaaaaaaaaaaaaaaaaaaaaaaaaaaaaaaaaaaaaaaaaaaaa\" => T0.66
\"aaaaaaaaaaaaaaaaaaaaaaaaaaaaaaaaaaaaaaaaaaaaaaaaaaaaaaaaaaaaaaaaa\" => LongText at 0
\"aaaaaaaaaaaaaaaaaaaaaaaaaaaaaaaaaaaaaaaaaaaaaaaaaaaaaaaaaaaaaaaaa => BadText at 0
\"aaaaaaaaaaaaaaaaaaaaaaaaaaaaaaaaaaaaaaaaaaaaaaaaaaaaaaaaaaaaaaa\\\"\" => T0.67
\"aaaaaaaaaaaaaaaaaaaaaaaaaaaaaaaaaaaaaaaaaaaaaaaaaaaaaaaaaaaaaaaa\\\"\" => LongText at 0
";

/// Numbers, and signs before them.
const NUMBERS: &str = "9223372036854775807 => N0.19
9223372036854775808 => WideNumber at 0
-9223372036854775808 => S0.1 N1.19
-9223372036854775809 => S0.1 WideNumber at 1
- -9223372036854775808 => S0.1 S2.1 N3.19
a - -9223372036854775808 => W0.1 S2.1 S4.1 N5.19
#\x01-9223372036854775808 => S2.1 N3.19
-#x\x019223372036854775808 => S0.1 N4.19
- 1 9223372036854775808 => S0.1 N2.1 WideNumber at 4
+9223372036854775808 => S0.1 WideNumber at 1
18446744073709551616 => WideNumber at 0
9999999999999999999999999999999999999999 => WideNumber at 0
007 => N0.3
00000000009223372036854775808 => WideNumber at 0
00000000009223372036854775807 => N0.29
";

/// Bytes that begin no token, and what stands around comments.
const BYTES: &str = "\x00 => BadByte at 0
é => BadByte at 0
! => BadByte at 0
% => BadByte at 0
& => BadByte at 0
' => BadByte at 0
/ => BadByte at 0
> => BadByte at 0
\\ => BadByte at 0
^ => BadByte at 0
` => BadByte at 0
~ => BadByte at 0
\x0b => BadByte at 0
a\x00 => W0.1 BadByte at 1
a # b\x01c => W0.1 W6.1
a#b => W0.1
a#b\r\x01c => W0.1 W5.1
none => W0.4
nonex => W0.5
a\x01!b => W0.1 BadByte at 2
! 9223372036854775808 => BadByte at 0
";

fn letter(kind: TokenKind) -> char {
    match kind {
        TokenKind::Word => 'W',
        TokenKind::Variable => 'V',
        TokenKind::Number => 'N',
        TokenKind::Text => 'T',
        TokenKind::Symbol => 'S',
    }
}

fn shown(alloc: Global, scanned: &Scanned) -> Result<String, AllocError> {
    let mut line = String::new(alloc);
    for token in scanned.tokens.as_slice() {
        if !line.is_empty() {
            line.push_str(" ")?;
        }
        line.push(letter(token.kind))?;
        let place = token.place;
        let len = token.len;
        write!(line, "{place}.{len}")?;
    }
    if let Some(bad) = scanned.fault {
        if !line.is_empty() {
            line.push_str(" ")?;
        }
        let cause = bad.cause;
        let place = bad.place;
        write!(line, "{cause:?} at {place}")?;
    }
    Ok(line)
}

fn checks_text(rt: &impl Abort, alloc: Global, text: &[u8], wanted: &str) -> Result<(), Fail> {
    assert!(rt; text.len() < 1000);
    let scanned = scan(alloc, text)?;
    let line = shown(alloc, &scanned)?;
    assert!(rt; line.as_str() == wanted, "{line:?} for {wanted:?}");
    let refusal = tokens(alloc, text).err();
    let fault = match scanned.fault {
        Some(bad) => Some(TextRefusal::Refused {
            place: bad.place,
            cause: bad.cause,
        }),
        None => None,
    };
    assert!(rt; refusal == fault, "the refusal of {wanted:?}");
    Ok(())
}

/// The bytes of a text of a table.
fn text_of(alloc: Global, told: &str) -> Result<Vec<u8>, AllocError> {
    let mut text = Vec::new(alloc);
    for byte in told.as_bytes() {
        text.push(if *byte == 1 { b'\n' } else { *byte })?;
    }
    Ok(text)
}

/// Wants the tokens of each text of a table.
fn checks_all(rt: &impl Abort, alloc: Global, table: &str) -> Result<(), Fail> {
    for line in table.lines() {
        let (told, wanted) = line.split_once(" => ").ok_or("no tokens in a line")?;
        let text = text_of(alloc, told)?;
        let wanted = if wanted == "nothing" { "" } else { wanted };
        checks_text(rt, alloc, text.as_slice(), wanted)?;
    }
    Ok(())
}

#[test]
fn blanks_and_symbols(rt: HostRuntime) -> Result<(), Fail> {
    checks_all(&rt, rt.alloc(), SYMBOLS)?;
    checks_all(&rt, rt.alloc(), BYTES)
}

#[test]
fn words_and_numbers(rt: HostRuntime) -> Result<(), Fail> {
    checks_all(&rt, rt.alloc(), WORDS)?;
    checks_all(&rt, rt.alloc(), NUMBERS)
}

#[test]
fn texts(rt: HostRuntime) -> Result<(), Fail> {
    checks_all(&rt, rt.alloc(), TEXTS)
}

/// Tokens behind which a `-` is no sign.
const NO_SIGN_AFTER: &str = "a abcd $a $in 1 \"\" true false none ) }";

/// And behind which it is.
const SIGN_AFTER: &str =
    "( [ ] { ; , . @ ? + - * | < = := abc and comp def ff free in not or run set show size this tt union when without";

fn checks_sign(rt: &impl Abort, alloc: Global, token: &str, sign: bool) -> Result<(), Fail> {
    let mut text = Vec::new(alloc);
    text.extend_from_slice(token.as_bytes())?;
    text.extend_from_slice(b" -9223372036854775808")?;
    assert!(rt; text.len() < 100);
    let all = tokens(alloc, text.as_slice());
    assert!(rt;
        all.is_ok() == sign,
        "whether a sign stands after {token:?}"
    );
    Ok(())
}

#[test]
fn signs_after_tokens(rt: HostRuntime) -> Result<(), Fail> {
    let alloc = rt.alloc();
    for token in NO_SIGN_AFTER.split(' ') {
        checks_sign(&rt, alloc, token, false)?;
    }
    for token in SIGN_AFTER.split(' ') {
        checks_sign(&rt, alloc, token, true)?;
    }
    Ok(())
}

fn repeated(alloc: Global, piece: &[u8], count: u32, end: &[u8]) -> Result<Vec<u8>, AllocError> {
    let mut text = Vec::new(alloc);
    for _ in 0..count {
        text.extend_from_slice(piece)?;
    }
    text.extend_from_slice(end)?;
    Ok(text)
}

/// What the numbers and texts among the tokens stand for.
fn meant(alloc: Global, bytes: &[u8], found: &[Token]) -> Result<Vec<u8>, AllocError>
    requires { All (StandsIn bytes.now) found.now }
{
    let mut all = Vec::new(alloc);
    for token in found {
        match token.kind {
            TokenKind::Number => all.push((number(bytes, *token) % 100) as u8)?,
            TokenKind::Text => all.extend_from_slice(text(bytes, *token).bytes())?,
            _ => {}
        }
    }
    Ok(all)
}

#[test]
fn long_tokens(rt: HostRuntime) -> Result<(), Fail> {
    let alloc = rt.alloc();
    let zeros = repeated(alloc, b"0", 1000, b"5")?;
    assert_eq!(rt; zeros.len(), 1001);
    let all = tokens(alloc, zeros.as_slice())?;
    assert_eq!(rt; all.len(), 1, "a number of 1,001 digits");
    let marks = repeated(alloc, b"\"\\\"\\\\", 1, b"\"7")?;
    assert_eq!(rt; marks.len(), 7);
    let all = tokens(alloc, marks.as_slice())?;
    let values = meant(alloc, marks.as_slice(), all.as_slice())?;
    assert_eq!(rt; values.as_slice(), [b'"', b'\\', 7].as_slice());
    let over = repeated(
        alloc,
        b"\"",
        1,
        repeated(alloc, b"\\\\", 65, b"\"")?.as_slice(),
    )?;
    assert_eq!(rt; over.len(), 132);
    let (place, cause) = (0, Cause::LongText);
    assert_eq!(rt;
        tokens(alloc, over.as_slice()).err(),
        Some(TextRefusal::Refused { place, cause })
    );
    Ok(())
}

#[test]
fn names_are_numbered(rt: HostRuntime) -> Result<(), Fail> {
    let alloc = rt.alloc();
    let text = b"comp b { a = \"x\"; show c, a; run ($in) b $a in 7 }".as_slice();
    let all = tokens(alloc, text)?;
    assert!(rt; all.len() < 100);
    let names = names_of(alloc, text, all.as_slice())?;
    let wanted: [&[u8]; 4] = [b"b", b"a", b"c", b"in"];
    assert_eq!(rt; names.words(), wanted.as_slice());
    Ok(())
}
