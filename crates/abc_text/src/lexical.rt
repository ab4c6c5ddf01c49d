use abc_cause::Cause;

/// The kinds of tokens.
#[derive(Clone, Copy, Debug, PartialEq, Eq)]
pub enum TokenKind {
    /// A letter and then letters, digits and `_`: a keyword or a name.
    Word,
    /// `$` and a word.
    Variable,
    /// A run of digits.
    Number,
    /// What stands in quotes, with `\"` and `\\` for a quote and a backslash.
    Text,
    /// One of `( ) { } [ ] ; , . @ ? + - * | < =`, or `:=`.
    Symbol,
}

/// One token of a text: where its first byte stands, counted from 0, and its number of bytes.
#[derive(Clone, Copy, Debug, PartialEq, Eq)]
pub struct Token {
    pub kind: TokenKind,
    pub place: u32,
    pub len: u32,
}

/// The first bad token of a text: where its first byte stands, counted from 0, and what is wrong.
#[derive(Clone, Copy, Debug, PartialEq, Eq)]
pub struct Fault {
    pub place: u32,
    pub cause: Cause,
}

/// What stands before a token, as far as signs need it.
#[derive(Clone, Copy, Debug, PartialEq, Eq)]
pub enum Before {
    /// Nothing, or a token after which a `-` is a sign.
    Open,
    /// A token that may end an operand, after which a `-` is a subtraction.
    Operand,
    /// A sign, after which a number may be 2^63.
    Sign,
}

/// What stands at the front of a text behind blanks and comments.
#[derive(Clone, Copy, Debug, PartialEq, Eq)]
pub enum Next {
    /// Nothing: the text ends.
    End,
    /// A token of this kind and length in bytes.
    Good(TokenKind, usize),
    /// A bad token.
    Bad(Cause),
}
