//! Whether an expression has the empty word.

ghost use Rattle.std.specs.Prelude.{◌≡◌, ◌↔◌, [], IsTrue};
ghost use Rattle.path_syntax.specs.Expression.{expression};
ghost use Rattle.path_syntax.specs.Language.{In};
ghost use Rattle.path_syntax.specs.Laws.{is_nullable};

use crate::expr::Expr;

/// Whether the empty word is in the language of the expression. Goes over the expression once at
/// most.
#[tactic(auto, using(crate::proofs::Nullable::nullable_is))]
pub fn has_empty_word(expr: &Expr) -> bool
    ensures meaning { IsTrue result ↔ In (expression expr.now) [] }
    ensures by_cases { result ≡ is_nullable (expression expr.now) }
{
    is_nullable(expr)
}

/// The test by cases.
fn is_nullable(expr: &Expr) -> bool
    ensures { result ≡ is_nullable (expression expr.now) }
{
    match expr {
        Expr::Atom(_) => false,
        Expr::Seq(left, right) => is_nullable(left) && is_nullable(right),
        Expr::Alt(left, right) => is_nullable(left) || is_nullable(right),
        Expr::Star(_) | Expr::Opt(_) => true,
        Expr::Plus(body) => is_nullable(body),
    }
}
