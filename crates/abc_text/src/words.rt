//! The keywords and the symbols: each with its spelling, in one table of each.
ghost use Rattle.std.specs.Prelude.{◌≡◌, map};
ghost use Rattle.abc_text.specs.Words as spec;

/// The words that are no names.
#[derive(Clone, Copy, Debug, PartialEq, Eq)]
pub enum Keyword {
    Abc,
    And,
    Comp,
    Def,
    False,
    Ff,
    Free,
    In,
    None,
    Not,
    Or,
    Run,
    Set,
    Show,
    Size,
    This,
    True,
    Tt,
    Union,
    When,
    Without,
}

/// The symbols.
#[derive(Clone, Copy, Debug, PartialEq, Eq)]
pub enum Mark {
    /// `(`
    OpenRound,
    /// `)`
    CloseRound,
    /// `{`
    OpenCurly,
    /// `}`
    CloseCurly,
    /// `[`
    OpenSquare,
    /// `]`
    CloseSquare,
    /// `;`
    Semicolon,
    /// `,`
    Comma,
    /// `.`
    Dot,
    /// `@`
    At,
    /// `?`
    Question,
    /// `+`
    Plus,
    /// `-`
    Minus,
    /// `*`
    Star,
    /// `|`
    Bar,
    /// `<`
    Below,
    /// `=`
    Equal,
    /// `:=`
    Becomes,
}

/// The keywords as they are spelled, in the order of their type.
pub const KEYWORDS: [(Keyword, &[u8]); 21] = [
    (Keyword::Abc, b"abc"),
    (Keyword::And, b"and"),
    (Keyword::Comp, b"comp"),
    (Keyword::Def, b"def"),
    (Keyword::False, b"false"),
    (Keyword::Ff, b"ff"),
    (Keyword::Free, b"free"),
    (Keyword::In, b"in"),
    (Keyword::None, b"none"),
    (Keyword::Not, b"not"),
    (Keyword::Or, b"or"),
    (Keyword::Run, b"run"),
    (Keyword::Set, b"set"),
    (Keyword::Show, b"show"),
    (Keyword::Size, b"size"),
    (Keyword::This, b"this"),
    (Keyword::True, b"true"),
    (Keyword::Tt, b"tt"),
    (Keyword::Union, b"union"),
    (Keyword::When, b"when"),
    (Keyword::Without, b"without"),
];

/// The symbols as they are spelled, in the order of their type.
pub const MARKS: [(Mark, &[u8]); 18] = [
    (Mark::OpenRound, b"("),
    (Mark::CloseRound, b")"),
    (Mark::OpenCurly, b"{"),
    (Mark::CloseCurly, b"}"),
    (Mark::OpenSquare, b"["),
    (Mark::CloseSquare, b"]"),
    (Mark::Semicolon, b";"),
    (Mark::Comma, b","),
    (Mark::Dot, b"."),
    (Mark::At, b"@"),
    (Mark::Question, b"?"),
    (Mark::Plus, b"+"),
    (Mark::Minus, b"-"),
    (Mark::Star, b"*"),
    (Mark::Bar, b"|"),
    (Mark::Below, b"<"),
    (Mark::Equal, b"="),
    (Mark::Becomes, b":="),
];

/// What the first of the rows is of that is spelled so.
fn spelled_in<T: Copy>(rows: &[(T, &'static [u8])], word: &[u8]) -> Option<T>
    ensures { result ≡ spec.spelled_in (map (λ row. (row.0, row.1.now)) rows.now) word.now }
{
    for row in rows {
        if row.1 == word {
            return Some(row.0);
        }
    }
    None
}

/// The keyword that is spelled so.
#[tactic(auto, unfolding(crate::specs::Words::keyword_at))]
pub fn keyword_at(word: &[u8]) -> Option<Keyword>
    ensures { result ≡ spec.keyword_at word.now }
{
    spelled_in(&KEYWORDS, word)
}

/// The symbol that is spelled so.
#[tactic(auto, unfolding(crate::specs::Words::mark_at))]
pub fn mark_at(symbol: &[u8]) -> Option<Mark>
    ensures { result ≡ spec.mark_at symbol.now }
{
    spelled_in(&MARKS, symbol)
}

/// How a keyword is spelled.
pub fn keyword_text(keyword: Keyword) -> &'static [u8]
    ensures { result.now ≡ spec.keyword_text keyword }
{
    KEYWORDS[keyword as usize].1
}

/// How a symbol is spelled.
pub fn mark_text(mark: Mark) -> &'static [u8]
    ensures { result.now ≡ spec.mark_text mark }
{
    MARKS[mark as usize].1
}
