//! Expressions over labels.

ghost use Rattle.std.specs.Prelude.{◌≡◌, IfOk};
ghost use Rattle.path_syntax.specs.Expression.{expression};

use rpq_base::{Label, Memory, TryClone};
use std::alloc::Global;

/// A regular expression over labels.
///
/// Contracts see it as an `Expression` of `specs/`: the same tree without where its parts lie in
/// memory. The operators are those of the property paths of SPARQL 1.1.
///
/// The calls of this crate over an expression, and its drop, recurse once a level of it. What
/// `read_expr` gives has at most 513 levels, and 512 take less than 128 KiB of stack. An expression
/// built by hand may be deeper: past some 40,000 levels it may run out of a stack of 8 MiB.
#[derive(Debug, Drop)]
pub enum Expr {
    /// One edge with this label.
    Atom(Label),
    /// The left side, and then the right one.
    Seq(Box<Expr>, Box<Expr>),
    /// One of the two sides.
    Alt(Box<Expr>, Box<Expr>),
    /// The body any number of times, also not at all.
    Star(Box<Expr>),
    /// The body once or more often.
    Plus(Box<Expr>),
    /// The body once, or not at all.
    Opt(Box<Expr>),
}

impl Expr {
    /// An equal expression. Its parts lie where the allocator that is given puts them; a label is
    /// copied with the allocator that it has.
    #[cycle(copy)]
    pub fn copy(&self, alloc: Global) -> Result<Expr, Memory>
        ensures { IfOk result (λ copy. expression copy ≡ expression self.now) }
    {
        match self {
            Expr::Atom(label) => Ok(Expr::Atom(label.copy()?)),
            Expr::Seq(left, right) => Ok(Expr::Seq(
                copy_boxed(left, alloc)?,
                copy_boxed(right, alloc)?,
            )),
            Expr::Alt(left, right) => Ok(Expr::Alt(
                copy_boxed(left, alloc)?,
                copy_boxed(right, alloc)?,
            )),
            Expr::Star(body) => Ok(Expr::Star(copy_boxed(body, alloc)?)),
            Expr::Plus(body) => Ok(Expr::Plus(copy_boxed(body, alloc)?)),
            Expr::Opt(body) => Ok(Expr::Opt(copy_boxed(body, alloc)?)),
        }
    }
}

#[cycle(copy)]
fn copy_boxed(expr: &Expr, alloc: Global) -> Result<Box<Expr>, Memory>
    ensures { IfOk result (λ copy. expression copy.value ≡ expression expr.now) }
{
    Ok(Box::new(alloc, expr.copy(alloc)?)?)
}
