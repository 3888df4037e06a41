//! The construction of the position automaton.

ghost use Rattle.std.specs.Prelude.{◌≡◌, ℕ, ◌+◌, ◌^◌, ◌<◌, ◌≤◌, ◌≢◌, ◌↔◌, ◌||◌, ◌&&◌, ◌++◌, List, [], length, map, IfOk, OnOk};
ghost use Rattle.rpq_base.specs.declared.data.Label.{Label};
ghost use Rattle.path_syntax.specs.Expression.{expression};
ghost use Rattle.path_syntax.specs.Language.{In};
ghost use Rattle.path_syntax.specs.Size.{atoms, nodes};
ghost use Rattle.dfa_build.specs.Construction.{AreEnds, IsConstructed, is_next};
ghost use Rattle.dfa_build.specs.Marked.{labels_of, ArePositionsOf};
ghost use Rattle.dfa_build.specs.PositionSet.{has, row_has, numbers};
ghost use Rattle.dfa_build.specs.Positions.{ArePositions, AreRising, AcceptsByPositions};

use crate::automaton::Positions;
use crate::fault::BuildFault;
use crate::position_set::PositionSet;
use path_syntax::{Expr, occurrences};
use rpq_base::{Label, Memory, TryClone};
use std::alloc::Global;

/// The greatest number of atoms of an expression for which an automaton is built.
const MAX_ATOMS: usize = 64;

/// The position automaton of the expression.
///
/// Cost: one step for each atom, at most 64 for each operator, and memory for at most 64 rows of
/// 64 numbers. Source: V. M. Glushkov, The abstract theory of automata, 1961, by the first, last
/// and follow positions of Berry and Sethi, and of Aho, Sethi and Ullman.
pub fn positions(alloc: Global, expr: &Expr) -> Result<Positions, BuildFault>
    requires { nodes (expression expr.now) < 2 ^ 32 }
    ensures too_many { (n : ℕ) →
        (result ≡ Err (BuildFault.TooManyLabels n))
        ↔ ((n ≡ atoms (expression expr.now)) × (64 < n)) }
    ensures states { result ≢ Err BuildFault.TooManyStates }
    ensures automaton { IfOk result (ArePositionsOf (expression expr.now)) }
    ensures form { IfOk result ArePositions }
    ensures rising { IfOk result AreRising }
    ensures accepts { IfOk result (λ positions. (word : List Label) →
        AcceptsByPositions positions word ↔ ((word ≢ []) × In (expression expr.now) word)) }
{
    let count = occurrences(expr);
    if count > MAX_ATOMS as u64 {
        return Err(BuildFault::TooManyLabels(count));
    }
    Ok(construct(alloc, expr)?)
}

/// The position automaton of an expression of at most 64 atoms.
fn construct(alloc: Global, expr: &Expr) -> Result<Positions, Memory>
    requires { atoms (expression expr.now) ≤ 64 }
    ensures { IfOk result (λ positions. IsConstructed (expression expr.now) positions) }
{
    let mut follow = [PositionSet::empty(); MAX_ATOMS];
    let ends = connect(expr, 0, &mut follow);
    let mut atoms = Vec::new(alloc);
    push_labels(expr, &mut atoms)?;
    Ok(Positions {
        atoms,
        first: ends.first.list(alloc)?,
        last: ends.last.list(alloc)?,
        follow: rows(alloc, &follow[..ends.next as usize])?,
    })
}

/// Copies of the labels of the expression's atoms, from left to right, are put at the end of the
/// list.
fn push_labels(expr: &Expr, labels: &mut Vec<Label>) -> Result<(), Memory>
    ensures { OnOk result (labels.new.items ≡ labels.old.items ++ labels_of (expression expr.now)) }
{
    match expr {
        Expr::Atom(label) => labels.push(label.copy()?)?,
        Expr::Seq(left, right) | Expr::Alt(left, right) => {
            push_labels(left, labels)?;
            push_labels(right, labels)?;
        }
        Expr::Star(body) | Expr::Plus(body) | Expr::Opt(body) => push_labels(body, labels)?,
    }
    Ok(())
}

/// How the words of a part of the expression begin and end.
#[derive(Clone, Copy)]
struct Ends {
    first: PositionSet,
    last: PositionSet,
    /// Whether the empty word is one of them.
    nullable: bool,
    /// The number after those of the part's positions.
    next: u32,
}

impl Ends {
    /// The ends of this part followed by the one on its right.
    fn followed_by(self, right: Ends) -> Ends
        ensures first { (p : ℕ) →
            has result.first p ≡ (has self.first p || (self.nullable && has right.first p)) }
        ensures last { (p : ℕ) →
            has result.last p ≡ (has right.last p || (right.nullable && has self.last p)) }
        ensures nullable { result.nullable ≡ (self.nullable && right.nullable) }
        ensures next { result.next ≡ right.next }
    {
        Ends {
            first: self.first.union_if(right.first, self.nullable),
            last: right.last.union_if(self.last, right.nullable),
            nullable: self.nullable && right.nullable,
            next: right.next,
        }
    }

    /// The ends of either this part or the one on its right.
    fn or(self, right: Ends) -> Ends
        ensures first { (p : ℕ) → has result.first p ≡ (has self.first p || has right.first p) }
        ensures last { (p : ℕ) → has result.last p ≡ (has self.last p || has right.last p) }
        ensures nullable { result.nullable ≡ (self.nullable || right.nullable) }
        ensures next { result.next ≡ right.next }
    {
        Ends {
            first: self.first.union(right.first),
            last: self.last.union(right.last),
            nullable: self.nullable || right.nullable,
            next: right.next,
        }
    }
}

/// The ends of a part of the expression whose positions are numbered from `from`. To the follow
/// positions are added those within the part.
fn connect(expr: &Expr, from: u32, follow: &mut [PositionSet]) -> Ends
    requires room { from + atoms (expression expr.now) ≤ length follow.old }
    requires few { length follow.old ≤ 64 }
    ensures ends { AreEnds (expression expr.now) from result }
    ensures follow { (p q : ℕ) → p < length follow.old →
        row_has follow.new p q
        ≡ (row_has follow.old p q || is_next (expression expr.now) from p q) }
{
    match expr {
        Expr::Atom(_) => Ends {
            first: PositionSet::of(from),
            last: PositionSet::of(from),
            nullable: false,
            next: from + 1,
        },
        Expr::Seq(left, right) => {
            let left = connect(left, from, follow);
            let right = connect(right, left.next, follow);
            add_follow(follow, left.last, right.first);
            left.followed_by(right)
        }
        Expr::Alt(one, other) => {
            let one = connect(one, from, follow);
            let other = connect(other, one.next, follow);
            one.or(other)
        }
        Expr::Star(body) => {
            let repeated = connect(body, from, follow);
            add_follow(follow, repeated.last, repeated.first);
            Ends {
                nullable: true,
                ..repeated
            }
        }
        Expr::Plus(body) => {
            let ends = connect(body, from, follow);
            add_follow(follow, ends.last, ends.first);
            ends
        }
        Expr::Opt(body) => Ends {
            nullable: true,
            ..connect(body, from, follow)
        },
    }
}

/// The positions of the one set may be followed by those of the other.
fn add_follow(follow: &mut [PositionSet], before: PositionSet, after: PositionSet)
    requires { length follow.old ≤ 64 }
    ensures { (p q : ℕ) → p < length follow.old →
        row_has follow.new p q ≡ (row_has follow.old p q || (has before p && has after q)) }
{
    for (position, row) in follow.iter_mut().enumerate() {
        *row = row.union_if(after, before.contains(position as u32));
    }
}

/// The sets as rising lists.
fn rows(alloc: Global, sets: &[PositionSet]) -> Result<Vec<Vec<u32>>, Memory>
    ensures { IfOk result (λ rows.
        map (λ row. row.items) rows.items ≡ map (λ set. numbers (has set)) sets.now) }
{
    let mut rows = Vec::with_capacity(alloc, sets.len())?;
    for set in sets {
        rows.push(set.list(alloc)?)?;
    }
    Ok(rows)
}
