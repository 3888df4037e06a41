//! Laws of the grammar of expressions. The functions do nothing: their contracts are the laws.

ghost use Rattle.std.specs.Prelude.{ℕ, Bool, List};
ghost use Rattle.path_syntax.specs.GrammarLaws.{OneExpression, OneOutcome, ShortNamesAreShort};
ghost use Rattle.path_syntax.specs.GrammarLaws.{GrammarExamples, FaultExamples, TwoWayExamples};
ghost use Rattle.path_syntax.specs.GrammarLaws.{OneWayIsPlain};
ghost use Rattle.path_syntax.specs.Expression.{Expression};

/// Bytes are the text of at most one expression.
pub fn one_expression()
    ensures { OneExpression }
{}

/// Bytes are the text of an expression within the limits, or have one fault.
pub fn one_outcome()
    ensures { (inverses : Bool) (bytes : List ℕ) → OneOutcome inverses bytes }
{}

/// Only an expression with a long name has a text with one.
pub fn short_names_are_short()
    ensures { ShortNamesAreShort }
{}

/// The texts without inverses are the texts with them whose labels all point forwards, and what
/// `read_expr` reads `read_two_way` reads as the same expression.
pub fn one_way_is_plain()
    ensures { (bytes : List ℕ) (e : Expression) → OneWayIsPlain bytes e }
{}

/// Some texts and their expressions.
pub fn grammar_examples()
    ensures { GrammarExamples }
{}

/// Some bytes and their faults.
pub fn fault_examples()
    ensures { FaultExamples }
{}

/// Some texts with inverses and their expressions, and some faults of such.
pub fn two_way_examples()
    ensures { TwoWayExamples }
{}
