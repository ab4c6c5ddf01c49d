//! The first limit that lists of tokens pass.
use abc_grammar::{Keyword, Lexeme, Mark};
use abc_limits::first_limit;
use abc_pred::Name;
use abc_value::{List, NoMemory};
use std::alloc::Global;
use std::process::Abort;
use std::test::Fail;

// In the tables each line is the tokens behind a header, ` => `, and the first limit that they pass. Tokens
// stand in pieces, and behind a `*` how often a piece stands. A mark is itself, D, C and S are the keywords
// `def`, `comp` and `set`, a is a name, and 7 is a number.

/// At most 100 brackets are open.
const BRACKETS: &str = "{*100 => Within
{*101 => Passed(103, TooDeep)
{*50 [*25 (*25 [ => Passed(103, TooDeep)
{*100 } { => Within
{*100 } {*2 => Passed(105, TooDeep)";

/// A definition and a component have at most 2,048 tokens.
const TOKENS: &str = "Da= a*2045 => Within
Da= a*2046 => Passed(2051, TooLarge)
a*3000 => Within
Da= a*2045 C a*2047 => Within
Da= a*2045 C a*2048 => Passed(4099, TooLarge)";

/// A tuple has at most eight parts, and each bracket has its own commas; a set has as many as it likes.
const PARTS: &str = "( a,*7 a ) @ => Within
( a,*8 a => Passed(20, LongTuple)
( a,*8 => Within
( a,*6 ( a,*7 a ) , a , a => Passed(36, LongTuple)
S ( a,*20 a ) => Within";

/// A set literal has at most 256 scalars.
const SCALARS: &str = "{ 7,*255 -7, => Within
{ 7,*255 -7,*2 => Passed(517, LongSet)
{ 7,*255 { 7,*255 } => Within";

/// An `@` and a `.` behind a set begin no program.
const STRAYS: &str = "S ( ) @ => Stray(6)
S ( a ) . => Stray(7)";

/// Of two limits at one token the first in order is named.
const TWO_AT_ONE_TOKEN: &str = "Da= {*100 a*1945 { => Passed(2051, TooDeep)
Da= a*2028 ( a,*8 a => Passed(2051, TooLarge)";

/// The token that a byte of a table stands for.
fn lexeme_of(byte: u8) -> Lexeme {
    match byte {
        b'D' => Lexeme::Keyword(Keyword::Def),
        b'C' => Lexeme::Keyword(Keyword::Comp),
        b'S' => Lexeme::Keyword(Keyword::Set),
        b'a' => Lexeme::Name(Name(0)),
        b'7' => Lexeme::Number(7),
        b'(' => Lexeme::Mark(Mark::OpenRound),
        b')' => Lexeme::Mark(Mark::CloseRound),
        b'[' => Lexeme::Mark(Mark::OpenSquare),
        b'{' => Lexeme::Mark(Mark::OpenCurly),
        b'}' => Lexeme::Mark(Mark::CloseCurly),
        b',' => Lexeme::Mark(Mark::Comma),
        b'.' => Lexeme::Mark(Mark::Dot),
        b'@' => Lexeme::Mark(Mark::At),
        b'-' => Lexeme::Mark(Mark::Minus),
        b'=' => Lexeme::Mark(Mark::Equal),
        _ => Lexeme::Mark(Mark::Semicolon),
    }
}

fn put_piece(tokens: &mut List<Lexeme>, piece: &str) -> Result<(), NoMemory> {
    for byte in piece.as_bytes() {
        tokens.push(lexeme_of(*byte))?;
    }
    Ok(())
}

/// A piece as often as it says.
fn put_often(tokens: &mut List<Lexeme>, word: &str) -> Result<(), NoMemory> {
    let (piece, count) = match word.split_once('*') {
        Some((piece, count)) => (piece, count.parse::<u32>().unwrap_or(0)),
        None => (word, 1),
    };
    for _ in 0..count {
        put_piece(tokens, piece)?;
    }
    Ok(())
}

/// The tokens of a header and of these pieces.
fn tokens_of(alloc: Global, pieces: &str) -> Result<List<Lexeme>, NoMemory> {
    let mut tokens = List::new(alloc);
    tokens.push(Lexeme::Keyword(Keyword::Abc))?;
    tokens.push(Lexeme::Number(1))?;
    put_piece(&mut tokens, ";")?;
    for word in pieces.split(' ') {
        put_often(&mut tokens, word)?;
    }
    Ok(tokens)
}

/// Wants the first limit of each line of a table.
fn passes_all(rt: &impl Abort, alloc: Global, table: &str) -> Result<(), Fail> {
    for line in table.lines() {
        let (pieces, wanted) = line.split_once(" => ").ok_or("no limit in a line")?;
        let tokens = tokens_of(alloc, pieces)?;
        let limit = first_limit(tokens.as_slice());
        let found = format!(in alloc; "{limit:?}")?;
        assert!(rt; found.as_str() == wanted, "{found:?} of {line:?}");
    }
    Ok(())
}

#[test]
fn limits_alone(rt: HostRuntime) -> Result<(), Fail> {
    passes_all(&rt, rt.alloc(), BRACKETS)?;
    passes_all(&rt, rt.alloc(), TOKENS)?;
    passes_all(&rt, rt.alloc(), PARTS)?;
    passes_all(&rt, rt.alloc(), SCALARS)
}

#[test]
fn limits_and_strays(rt: HostRuntime) -> Result<(), Fail> {
    passes_all(&rt, rt.alloc(), STRAYS)?;
    passes_all(&rt, rt.alloc(), TWO_AT_ONE_TOKEN)
}
