//! Laws of the definitions, each the contract of a function that does nothing.
ghost use Rattle.abc_grammar.specs.Laws.{OneOperand, OneExpr, OnePred, OneProcess, OneProgram, TermsBalance, CausesInOrder, RefusalsAreOne};
ghost use Rattle.abc_grammar.specs.LexemeLaws.{LexemesAgree};
ghost use Rattle.abc_grammar.specs.TextLaws.{FrontsAreOne, TextsAreOne};
ghost use Rattle.abc_grammar.specs.SizeLaws.{SizesCountLiterals};
ghost use Rattle.abc_grammar.specs.SignLaws.{SignsAreOfLiterals};
ghost use Rattle.abc_grammar.specs.TokenSigns.{SignsAreOne};

/// A list of tokens is at most one operand, one expression, one predicate, one process and one program.
pub fn one_term()
    ensures operands { OneOperand }
    ensures exprs { OneExpr }
    ensures preds { OnePred }
    ensures processes { OneProcess }
    ensures programs { OneProgram }
{}

/// The tokens of a predicate and of a program close each bracket that they open, and no other.
pub fn terms_balance()
    ensures { TermsBalance }
{}

/// A text has at most one refusal, one token and one cause.
pub fn refusals_are_one()
    ensures { RefusalsAreOne }
{}

/// Of two causes at one token the refusal is for the first: a bad token, a wrong one, too many brackets,
/// tokens, expressions or variables, scalars, in this order.
pub fn causes_in_order()
    ensures { CausesInOrder }
{}

/// A token names what its lexeme names.
pub fn lexemes_agree()
    ensures { LexemesAgree }
{}

/// A text begins with at most one predicate, of one length, or with none and is refused at most at one
/// place for one cause, and not both.
pub fn fronts_are_one()
    ensures { FrontsAreOne }
{}

/// A text is accepted as at most one program, or refused at most at one place for one cause, and not
/// both.
pub fn texts_are_one()
    ensures { TextsAreOne }
{}

/// The signs, by the token before each `-`, are the `-` of signed literals, and every other `-` is none.
pub fn signs_are_of_literals()
    ensures { SignsAreOfLiterals }
{}

/// The signs of a text's tokens are those of its lexemes, and a number of 2^63 stands only right behind
/// one: in a text of the grammar behind the `-` of a signed literal.
pub fn signs_are_one()
    ensures { SignsAreOne }
{}

/// The size of a predicate is the number of its tokens, each literal counting as one.
pub fn sizes_count_literals()
    ensures { SizesCountLiterals }
{}
