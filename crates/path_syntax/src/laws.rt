//! Laws of the definitions. The functions do nothing, but for the last two: their contracts are the
//! laws.

ghost use Rattle.std.specs.Prelude.{◌≡◌, ◌≤◌, List, MatchResult};
ghost use Rattle.rpq_base.specs.declared.data.Label.{Label};
ghost use Rattle.path_syntax.specs.Expression.{Expression, expression};
ghost use Rattle.path_syntax.specs.Laws.{EachHasAWord, NullableHasEmptyWord, RepetitionsByCases};
ghost use Rattle.path_syntax.specs.WrittenLaws.{WrittenExamples, WrittenIsSpelled, WrittenHasSigns};
ghost use Rattle.path_syntax.specs.WrittenLaws.{WrittenIsReadable, written_signs};
ghost use Rattle.path_syntax.specs.Plain.{IsPlainExpression};

use crate::expr::Expr;
use crate::read::{BadExpr, read_expr, read_two_way};
use crate::write::write_expr;
use std::alloc::Global;

/// The words of a star, a plus and an optional are those that the textbook gives them by cases.
pub fn repetitions_by_cases()
    ensures { (body : Expression) (word : List Label) → RepetitionsByCases body word }
{}

/// The expressions that have the empty word are those that a test by cases finds.
pub fn nullable_has_empty_word()
    ensures { NullableHasEmptyWord }
{}

/// Each expression has a nonempty word.
pub fn each_has_a_word()
    ensures { EachHasAWord }
{}

/// Some written forms.
pub fn written_examples()
    ensures { WrittenExamples }
{}

/// The written form of an expression is a text of it in the grammar: in that with inverses, and in
/// that without them where all its labels point forwards.
pub fn written_is_spelled()
    ensures { WrittenIsSpelled }
{}

/// The written form of an expression has as many signs as the definition by cases says.
pub fn written_has_signs()
    ensures { WrittenHasSigns }
{}

/// The written form of an expression is within the limits of what is read, where it has at most 512
/// signs.
///
/// With [`written_is_spelled`], and with what `write_expr` and the two readers say, an expression
/// that is written is read again.
pub fn written_is_readable()
    ensures { WrittenIsReadable }
{}

/// What is written is read again, where all labels point forwards, by what the two calls and the
/// laws say alone.
///
/// The expression is written and its text read, so that this law is seen by a caller.
pub fn written_is_read_again(alloc: Global, expr: &Expr) -> Result<Expr, BadExpr>
    requires plain { IsPlainExpression (expression expr.now) }
    requires few { written_signs (expression expr.now) ≤ 512 }
    ensures { MatchResult result
        (λ again. expression again ≡ expression expr.now)
        (λ fault. fault ≡ BadExpr.Memory) }
{
    written_is_spelled();
    written_is_readable();
    let text = write_expr(alloc, expr)?;
    read_expr(alloc, &text)
}

/// What is written is read again with inverses, whichever labels are taken backwards.
pub fn written_two_way_is_read_again(alloc: Global, expr: &Expr) -> Result<Expr, BadExpr>
    requires few { written_signs (expression expr.now) ≤ 512 }
    ensures { MatchResult result
        (λ again. expression again ≡ expression expr.now)
        (λ fault. fault ≡ BadExpr.Memory) }
{
    written_is_spelled();
    written_is_readable();
    let text = write_expr(alloc, expr)?;
    read_two_way(alloc, &text)
}
