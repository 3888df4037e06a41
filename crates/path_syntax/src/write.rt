//! Writing an expression.

ghost use Rattle.std.specs.Prelude.{◌≡◌, ◌∷◌, [], ◌++◌, not, IfOk, OnOk};
ghost use Rattle.path_syntax.specs.Expression.{expression};
ghost use Rattle.path_syntax.specs.Written.{is_atom, is_seq, is_alt, grouped, written_expression};
ghost use Rattle.path_syntax.specs.Written.{IsNamed};

use crate::expr::Expr;
use crate::label_text::push_label;
use rpq_base::Memory;
use std::alloc::Global;

/// The written form of an expression: no blanks, `^` before a label that is taken backwards, quotes
/// only round labels that need them, parentheses only where the operators wouldn't group so without
/// them. Goes over the expression once.
pub fn write_expr(alloc: Global, expr: &Expr) -> Result<Vec<u8>, Memory>
    ensures text { IfOk result (λ text. text.items ≡ written_expression (expression expr.now)) }
    ensures named { OnOk result (IsNamed (expression expr.now)) }
{
    let mut text = Vec::new(alloc);
    push_expr(&mut text, expr)?;
    Ok(text)
}

/// Writes an expression at the end of the text.
#[cycle(write)]
fn push_expr(text: &mut Vec<u8>, expr: &Expr) -> Result<(), Memory>
    ensures text { OnOk result
        (text.new.items ≡ text.old.items ++ written_expression (expression expr.now)) }
    ensures named { OnOk result (IsNamed (expression expr.now)) }
{
    match expr {
        Expr::Atom(label) => push_label(text, label),
        Expr::Seq(left, right) => {
            push_part(text, left, is_alt(left))?;
            text.push(b'/')?;
            push_part(text, right, is_alt(right) || is_seq(right))
        }
        Expr::Alt(left, right) => {
            push_expr(text, left)?;
            text.push(b'|')?;
            push_part(text, right, is_alt(right))
        }
        Expr::Star(body) => push_repeated(text, body, b'*'),
        Expr::Plus(body) => push_repeated(text, body, b'+'),
        Expr::Opt(body) => push_repeated(text, body, b'?'),
    }
}

/// Writes a part of an expression, in parentheses where they are wanted.
#[cycle(write)]
fn push_part(text: &mut Vec<u8>, part: &Expr, parentheses: bool) -> Result<(), Memory>
    ensures text { OnOk result (text.new.items ≡
        text.old.items ++ grouped parentheses (written_expression (expression part.now))) }
    ensures named { OnOk result (IsNamed (expression part.now)) }
{
    if !parentheses {
        return push_expr(text, part);
    }
    text.push(b'(')?;
    push_expr(text, part)?;
    text.push(b')')?;
    Ok(())
}

/// Writes what is repeated, and the sign behind it.
#[cycle(write)]
fn push_repeated(text: &mut Vec<u8>, body: &Expr, sign: u8) -> Result<(), Memory>
    ensures text { OnOk result (text.new.items ≡ text.old.items ++
        (grouped (not (is_atom (expression body.now))) (written_expression (expression body.now)) ++
        sign ∷ [])) }
    ensures named { OnOk result (IsNamed (expression body.now)) }
{
    push_part(text, body, !is_atom(body))?;
    text.push(sign)?;
    Ok(())
}

fn is_atom(expr: &Expr) -> bool
    ensures { result ≡ is_atom (expression expr.now) }
{
    matches!(expr, Expr::Atom(_))
}

fn is_seq(expr: &Expr) -> bool
    ensures { result ≡ is_seq (expression expr.now) }
{
    matches!(expr, Expr::Seq(..))
}

fn is_alt(expr: &Expr) -> bool
    ensures { result ≡ is_alt (expression expr.now) }
{
    matches!(expr, Expr::Alt(..))
}
