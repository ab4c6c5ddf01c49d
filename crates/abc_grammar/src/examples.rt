//! Worked examples: small texts that are, and are not, of the grammar, and how others are refused.

ghost use Rattle.abc_grammar.specs.Examples as example;
ghost use Rattle.abc_grammar.specs.LimitExamples.{BracketLimits, TokenLimits, PartLimits};
ghost use Rattle.abc_grammar.specs.OrderExamples.{TwoOfEach, NamePlaces};
ghost use Rattle.abc_grammar.specs.WorkedTexts.{WorkedTexts};

/// What tokens stand for: names by first meeting, a keyword behind `$`, a number with leading zeros.
pub fn worked_lexemes()
    ensures in_in { example.InIn }
    ensures becomes_007 { example.Becomes007 }
{}

/// Terms that lists of tokens are: sums to the left, signs, sets, precedence, a whole program.
pub fn worked_terms()
    ensures minus_minus_one { example.MinusMinusOne }
    ensures to_the_left { example.ToTheLeft }
    ensures sum_times_size { example.SumTimesSize }
    ensures least_number { example.LeastNumber }
    ensures precedence { example.Precedence }
    ensures choice_and_par { example.ChoiceAndPar }
    ensures small_program { example.SmallProgram }
{}

/// Lists of tokens that are no term, or not that one.
pub fn what_is_no_term()
    ensures not_to_the_right { example.NotToTheRight }
    ensures two_signs { example.TwoSigns }
    ensures plus_nothing { example.PlusNothing }
    ensures size_of_union { example.SizeOfUnion }
    ensures too_great { example.TooGreat }
    ensures round_brackets { example.RoundBrackets }
    ensures one_is_none { example.OneIsNone }
{}

/// Limits, the longest front of a text that is a predicate, and refusals with token and cause.
pub fn worked_refusals()
    ensures brackets_of_101 { example.BracketsOf101 }
    ensures brackets_of_100 { example.BracketsOf100 }
    ensures ninth_expr { example.NinthExpr }
    ensures ninth_variable { example.NinthVariable }
    ensures extra_scalar { example.ExtraScalar }
    ensures extra_token { example.ExtraToken }
    ensures size_five { example.SizeFive }
    ensures front_of_one { example.FrontOfOne }
    ensures no_front { example.NoFront }
    ensures header_of_three { example.HeaderOfThree }
    ensures arrow { example.Arrow }
{}

/// Both sides of each limit: brackets, tokens, expressions, variables, scalars.
pub fn worked_limits()
    ensures brackets { BracketLimits }
    ensures tokens { TokenLimits }
    ensures parts { PartLimits }
{}

/// Definitions, components, first values, shown attributes, variables, expressions and updates keep their
/// order, and each name of a definition or a component has its place.
pub fn worked_orders()
    ensures two_of_each { TwoOfEach }
    ensures name_places { NamePlaces }
{}

/// Whole texts from their bytes: one that is accepted, and four that are refused.
pub fn worked_texts()
    ensures { WorkedTexts }
{}
