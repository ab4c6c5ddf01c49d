use crate::boxed_text::BoxedText;
use abc_pred::Name;
use abc_text::{Keyword, Mark};

/// What a token stands for.
#[derive(Debug, Drop)]
pub enum Lexeme {
    Keyword(Keyword),
    Mark(Mark),
    /// A word that is no keyword, by its number.
    Name(Name),
    /// The word behind a `$`, by its number; it may be a keyword.
    Variable(Name),
    /// A number as its digits write it: at most 2^63.
    Number(u64),
    /// A text without its quotes and backslashes.
    Text(BoxedText),
}
