//! The limits of a predicate that stands alone.
ghost use Rattle.std.specs.Prelude.{◌≡◌, ◌<◌, ◌≤◌, ◌+◌, ◌^◌, length};
ghost use Rattle.abc_grammar.specs.Limits as limit;
ghost use Rattle.abc_grammar.specs.Sizes as sizes;
ghost use Rattle.abc_limits.specs.Written.{scalars_of};
ghost use Rattle.abc_limits.specs.Limiting as spec;

use crate::look::{closes, closes_set, ends_operand, is_minus, is_number, opens, opens_set};
use crate::scalars::{Written, is_full, written_behind};
use abc_cause::Cause;
use abc_grammar::{Lexeme, MOST_OPEN, MOST_TOKENS};

/// Where a token stands, as far as its size needs it.
#[derive(Clone, Copy, Debug)]
pub enum Spot {
    /// Where a `-` is a sign.
    Free,
    /// Behind a token that may end an operand.
    Behind,
    /// Behind a sign.
    Signed,
    /// In a set literal.
    Within,
}

/// What the tokens before a token come to.
#[derive(Clone, Copy, Debug)]
pub struct Before {
    /// How many brackets are open.
    pub depth: usize,
    pub spot: Spot,
    /// How many tokens there are, a literal counting as one.
    pub size: usize,
    pub written: Written,
}

fn open_with(depth: usize, lexeme: &Lexeme) -> usize
    requires { depth < 2 ^ 63 }
    ensures value { result ≡ limit.open_with depth lexeme.now }
    ensures grows { result ≤ depth + 1 }
{
    if opens(lexeme) {
        depth + 1
    } else if closes(lexeme) {
        depth.saturating_sub(1)
    } else {
        depth
    }
}

fn spot_by(behind_minus: Spot, lexeme: &Lexeme) -> Spot
    ensures { spec.spot_of result ≡ sizes.spot_by (spec.spot_of behind_minus) lexeme.now }
{
    if opens_set(lexeme) {
        Spot::Within
    } else if is_minus(lexeme) {
        behind_minus
    } else if ends_operand(lexeme) {
        Spot::Behind
    } else {
        Spot::Free
    }
}

fn spot_behind(spot: Spot, lexeme: &Lexeme) -> Spot
    ensures { spec.spot_of result ≡ sizes.spot_behind (spec.spot_of spot) lexeme.now }
{
    match spot {
        Spot::Free => spot_by(Spot::Signed, lexeme),
        Spot::Behind => spot_by(Spot::Free, lexeme),
        Spot::Signed => spot_by(Spot::Signed, lexeme),
        Spot::Within => {
            if closes_set(lexeme) {
                Spot::Behind
            } else {
                Spot::Within
            }
        }
    }
}

fn is_counted(spot: Spot, lexeme: &Lexeme) -> bool
    ensures { result ≡ sizes.counts (spec.spot_of spot) lexeme.now }
{
    match spot {
        Spot::Free => true,
        Spot::Behind => true,
        Spot::Signed => !is_number(lexeme),
        Spot::Within => false,
    }
}

/// The first limit that is passed at a token, if one is.
fn passed(before: Before, lexeme: &Lexeme) -> Option<Cause>
    ensures { result ≡ spec.passed (spec.state_of before) lexeme.now }
{
    if opens(lexeme) && MOST_OPEN <= before.depth {
        Some(Cause::TooDeep)
    } else if is_counted(before.spot, lexeme) && MOST_TOKENS <= before.size {
        Some(Cause::TooLarge)
    } else if is_full(before.written) {
        Some(Cause::LongSet)
    } else {
        None
    }
}

/// What the tokens up to and with a token come to.
fn step(before: Before, lexeme: &Lexeme) -> Before
    requires depth { before.depth < 2 ^ 63 }
    requires size { before.size < 2 ^ 63 }
    requires written { scalars_of before.written < 2 ^ 63 }
    ensures value { spec.state_of result ≡ spec.step (spec.state_of before) lexeme.now }
    ensures depth { result.depth ≤ before.depth + 1 }
    ensures size { result.size ≤ before.size + 1 }
    ensures written { scalars_of result.written ≤ scalars_of before.written + 1 }
{
    Before {
        depth: open_with(before.depth, lexeme),
        spot: spot_behind(before.spot, lexeme),
        size: larger(before.size, is_counted(before.spot, lexeme)),
        written: written_behind(before.written, lexeme),
    }
}

fn larger(size: usize, by_one: bool) -> usize
    requires { size < 2 ^ 63 }
    ensures value { result ≡ spec.larger size by_one }
    ensures grows { result ≤ size + 1 }
{
    if by_one { size + 1 } else { size }
}

/// The first token at which a limit is passed, by its number, and the first limit that it passes.
#[tactic(auto, unfolding(crate::specs::Limiting::first_limit))]
pub fn first_limit_of_pred(lexemes: &[Lexeme]) -> Option<(usize, Cause)>
    ensures { result ≡ spec.first_limit lexemes.now }
{
    let mut before = Before {
        depth: 0,
        spot: Spot::Free,
        size: 0,
        written: Written::Outside,
    };
    let mut number = 0;
    let mut rest = lexemes;
    while let Some((lexeme, more)) = rest.split_first() {
        if let Some(cause) = passed(before, lexeme) {
            return Some((number, cause));
        }
        before = step(before, lexeme);
        number += 1;
        rest = more;
    }
    None
}
