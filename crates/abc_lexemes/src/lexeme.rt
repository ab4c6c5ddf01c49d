//! What a token stands for.
ghost use Rattle.std.specs.Prelude.{◌≡◌, ◌<◌, ◌^◌, length, IfOk};
ghost use Rattle.abc_lexemes.specs.Lexed.{HasText, IsMeant};

use abc_grammar::{BoxedText, Lexeme};
use abc_lexer::{Item, Names, unescaped};
use abc_pred::Name;
use abc_value::NoMemory;
use std::alloc::Global;

/// What the token stands for. The word that it names gets the next number, where it has none.
pub fn lexeme<'t>(alloc: Global, item: Item<'t>, known: &mut Names<'t>) -> Result<Lexeme, NoMemory>
    requires few { length known.old < 2 ^ 32 }
    requires text { HasText item }
    ensures { IfOk result (λ x. IsMeant known.old known.new item.entry x) }
{
    match item {
        Item::Keyword(keyword) => Ok(Lexeme::Keyword(keyword)),
        Item::Name(word) => Ok(Lexeme::Name(Name(known.number(word)?))),
        Item::Variable(word) => Ok(Lexeme::Variable(Name(known.number(word)?))),
        Item::Number(number) => Ok(Lexeme::Number(number)),
        Item::Text(text) => Ok(Lexeme::Text(BoxedText::new(alloc, unescaped(text))?)),
        Item::Mark(mark) => Ok(Lexeme::Mark(mark)),
    }
}
