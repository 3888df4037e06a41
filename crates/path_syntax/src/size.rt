//! How many labels stand in an expression.

ghost use Rattle.std.specs.Prelude.{◌≡◌, ◌<◌, ◌^◌};
ghost use Rattle.path_syntax.specs.Expression.{expression};
ghost use Rattle.path_syntax.specs.Size.{atoms, nodes};

use crate::expr::Expr;

/// How many times a label stands in the expression, each of its places counted. Goes over the
/// expression once.
#[tactic(auto, using(crate::proofs::Sizes::atoms_within_nodes))]
pub fn occurrences(expr: &Expr) -> u64
    requires { nodes (expression expr.now) < 2 ^ 32 }
    ensures { result ≡ atoms (expression expr.now) }
{
    match expr {
        Expr::Atom(_) => 1,
        Expr::Seq(left, right) | Expr::Alt(left, right) => occurrences(left) + occurrences(right),
        Expr::Star(body) | Expr::Plus(body) | Expr::Opt(body) => occurrences(body),
    }
}
