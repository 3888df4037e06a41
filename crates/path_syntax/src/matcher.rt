//! The plain matcher.

ghost use Rattle.std.specs.Prelude.{◌≡◌, ◌++◌, ◌↔◌, IsTrue, IfOk, OnOk};
ghost use Rattle.path_syntax.specs.Expression.{expression};
ghost use Rattle.path_syntax.specs.Language.{In};
ghost use Rattle.path_syntax.specs.Marks.{first_mark, other_marks, marks_behind, may_end};
ghost use Rattle.path_syntax.specs.Marks.{marks_after};

use crate::empty_word::has_empty_word;
use crate::expr::Expr;
use rpq_base::{Label, Memory};
use std::alloc::Global;

/// Whether the word is in the language of the expression.
///
/// It keeps a mark at each label of the expression that the word so far may end with, and moves the
/// marks on at each label of the word. A label of the word costs at most the expression's size
/// times the square of its depth, and the marks take memory for a `bool` a label of the expression.
/// It recurses once a level of the expression, however long the word is: see [`Expr`] for the depths
/// that are safe.
///
/// Source: Fischer, Huch and Wilke, A Play on Regular Expressions, ICFP 2010.
pub fn accepts(alloc: Global, expr: &Expr, word: &[Label]) -> Result<bool, Memory>
    ensures answer { IfOk result (λ yes. IsTrue yes ↔ In (expression expr.now) word.now) }
{
    let [first, rest @ ..] = word else {
        return Ok(has_empty_word(expr));
    };
    let mut marks = marks_after(alloc, expr, &[], true, first)?;
    for label in rest {
        marks = marks_after(alloc, expr, &marks, false, label)?;
    }
    Ok(may_end(expr, &marks))
}

/// The marks after one more label, with which a word of the expression may begin or not.
fn marks_after(
    alloc: Global,
    expr: &Expr,
    marks: &[bool],
    begins: bool,
    label: &Label,
) -> Result<Vec<bool>, Memory>
    ensures { IfOk result (λ after. after.items ≡
        marks_after (expression expr.now) marks.now begins label.now) }
{
    let mut after = Vec::new(alloc);
    push_marks(&mut after, expr, marks, begins, label)?;
    Ok(after)
}

/// Puts the marks after one more label behind those that are there.
fn push_marks(
    after: &mut Vec<bool>,
    expr: &Expr,
    marks: &[bool],
    begins: bool,
    label: &Label,
) -> Result<(), Memory>
    ensures { OnOk result (after.new.items ≡ after.old.items ++
        marks_after (expression expr.now) marks.now begins label.now) }
{
    match expr {
        Expr::Atom(own) => Ok(after.push(begins && own == label)?),
        Expr::Seq(left, right) => {
            let next = may_end(left, marks) || begins && has_empty_word(left);
            push_marks(after, left, marks, begins, label)?;
            push_marks(after, right, marks_behind(left, marks), next, label)
        }
        Expr::Alt(left, right) => {
            push_marks(after, left, marks, begins, label)?;
            push_marks(after, right, marks_behind(left, marks), begins, label)
        }
        Expr::Star(body) => {
            push_marks(after, body, marks, begins || may_end(body, marks), label)
        }
        Expr::Plus(body) => {
            push_marks(after, body, marks, begins || may_end(body, marks), label)
        }
        Expr::Opt(body) => push_marks(after, body, marks, begins, label),
    }
}

/// Whether a word of the expression may end here.
fn may_end(expr: &Expr, marks: &[bool]) -> bool
    ensures { result ≡ may_end (expression expr.now) marks.now }
{
    match expr {
        Expr::Atom(_) => first_mark(marks),
        Expr::Seq(left, right) => {
            let here = has_empty_word(right) && may_end(left, marks);
            here || may_end(right, marks_behind(left, marks))
        }
        Expr::Alt(left, right) => may_end(left, marks) || may_end(right, marks_behind(left, marks)),
        Expr::Star(body) | Expr::Plus(body) | Expr::Opt(body) => may_end(body, marks),
    }
}

/// The marks behind those of the expression.
fn marks_behind<'a>(expr: &Expr, marks: &'a [bool]) -> &'a [bool]
    ensures { result.now ≡ marks_behind (expression expr.now) marks.now }
{
    match expr {
        Expr::Atom(_) => other_marks(marks),
        Expr::Seq(left, right) | Expr::Alt(left, right) => {
            marks_behind(right, marks_behind(left, marks))
        }
        Expr::Star(body) | Expr::Plus(body) | Expr::Opt(body) => marks_behind(body, marks),
    }
}

/// The first mark, and false where there is none.
fn first_mark(marks: &[bool]) -> bool
    ensures { result ≡ first_mark marks.now }
{
    match marks {
        [mark, ..] => *mark,
        [] => false,
    }
}

/// The marks but the first.
fn other_marks(marks: &[bool]) -> &[bool]
    ensures { result.now ≡ other_marks marks.now }
{
    match marks {
        [_, others @ ..] => others,
        [] => marks,
    }
}
