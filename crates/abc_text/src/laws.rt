//! Laws of the definitions, each the contract of a function that does nothing.
ghost use Rattle.abc_text.specs.Laws.{OneReading, SpelledIsRead, TokensStand, FaultsAreLexical, NumbersFit, NamesStay, NamedHaveNumbers, WordsAreSpelled};
ghost use Rattle.abc_text.specs.Spelling.{Spellings};
ghost use Rattle.abc_text.specs.Worked.{WorkedTokens, WorkedLimits, WorkedWords};

/// Each text is tokens to its end, or tokens and then a first bad one, in exactly one way.
pub fn one_reading()
    ensures { OneReading }
{}

/// The tokens of spelled tokens, with blanks between them, are these tokens.
pub fn spelled_is_read()
    ensures { SpelledIsRead }
{}

/// Each token of a text stands in it, and its bytes alone are read as this token.
pub fn tokens_stand()
    ensures { TokensStand }
{}

/// Words, variables, numbers and texts are read as they are spelled.
pub fn spellings()
    ensures { Spellings }
{}

/// A bad token is bad for one of the five causes of tokens.
pub fn faults_are_lexical()
    ensures { FaultsAreLexical }
{}

/// A number of a text is below 2^63, or it is 2^63 and stands right behind a sign.
pub fn numbers_fit()
    ensures { NumbersFit }
{}

/// The numbers of names stay as more tokens come.
pub fn names_stay()
    ensures { NamesStay }
{}

/// Each word that a token names has a number.
pub fn named_have_numbers()
    ensures { NamedHaveNumbers }
{}

/// Tokens worked through the definitions.
pub fn worked_tokens()
    ensures { WorkedTokens }
{}

/// Tokens on both sides of their limits.
pub fn worked_limits()
    ensures { WorkedLimits }
{}

/// Each keyword and each symbol has one spelling, and each symbol of a text is one of the table.
pub fn words_are_spelled()
    ensures { WordsAreSpelled }
{}

/// The keywords and the symbols by their spellings.
pub fn worked_words()
    ensures { WorkedWords }
{}
