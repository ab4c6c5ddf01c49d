//! What stands before the next token.
ghost use Rattle.std.specs.Prelude.{◌≡◌, List, ℕ};
ghost use Rattle.abc_text.specs.Tokens as spec;
ghost use Rattle.abc_text.specs.Words as words;
ghost use Rattle.abc_lexer.specs.Items.{kind_of, IsItem};

use crate::step::Item;
use abc_text::{Before, Keyword, Mark};

/// Whether the keyword is a literal.
fn is_literal(keyword: Keyword) -> bool
    ensures { result ≡ words.is_literal keyword }
{
    match keyword {
        Keyword::False | Keyword::None | Keyword::True => true,
        _ => false,
    }
}

fn closes_operand(mark: Mark) -> bool
    ensures { result ≡ words.closes_operand mark }
{
    match mark {
        Mark::CloseRound | Mark::CloseCurly => true,
        _ => false,
    }
}

fn is_dash(mark: Mark) -> bool
    ensures { result ≡ words.is_dash mark }
{
    match mark {
        Mark::Minus => true,
        _ => false,
    }
}

/// Whether an operand may end with the token.
fn ends_operand(item: &Item) -> bool
    ensures { (word : List ℕ) → IsItem word item.now → result ≡ spec.ends_operand (kind_of item.now) word }
{
    match item {
        Item::Keyword(keyword) => is_literal(*keyword),
        Item::Name(_) => true,
        Item::Variable(_) => true,
        Item::Number(_) => true,
        Item::Text(_) => true,
        Item::Mark(mark) => closes_operand(*mark),
    }
}

fn is_minus(item: &Item) -> bool
    ensures { (word : List ℕ) → IsItem word item.now → result ≡ spec.is_minus (kind_of item.now) word }
{
    match item {
        Item::Mark(mark) => is_dash(*mark),
        _ => false,
    }
}

fn is_sign(before: Before, item: &Item) -> bool
    ensures { (word : List ℕ) → IsItem word item.now → result ≡ spec.is_sign before (kind_of item.now) word }
{
    match before {
        Before::Operand => false,
        Before::Open => is_minus(item),
        Before::Sign => is_minus(item),
    }
}

/// What stands before the next token.
#[tactic(auto, unfolding(abc_text::specs::Tokens::stands_after))]
pub fn stands_after(before: Before, item: &Item) -> Before
    ensures { (word : List ℕ) → IsItem word item.now → result ≡ spec.stands_after before (kind_of item.now) word }
{
    if ends_operand(item) {
        Before::Operand
    } else if is_sign(before, item) {
        Before::Sign
    } else {
        Before::Open
    }
}
