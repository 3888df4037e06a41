//! The transitive closure of a relation between vertices.

ghost use Rattle.std.specs.Prelude.{◌≡◌, ◌↔◌, ℕ, List, filter, IfOk, OnOk, Contains};
ghost use Rattle.rpq_base.specs.Same.{same_name};
ghost use Rattle.rpq_base.specs.declared.data.Pair.{Pair};
ghost use Rattle.rpq_model.specs.Relations.{targets, AreExactly, IsPairOver, IsReached};

use crate::relation::{add_all, add_composed, in_order};
use rpq_base::{Memory, Name, Pair, TryClone};
use std::alloc::Global;
use std::collections::BTreeSet;

/// The vertices that the pairs lead to, each once.
fn distinct_targets(alloc: Global, pairs: &[Pair]) -> Result<Vec<Name>, Memory>
    ensures { IfOk result (λ vertices. (vertex : List ℕ) →
        Contains vertices.items vertex ↔ Contains (targets pairs.now) vertex) }
{
    let mut found = BTreeSet::new(alloc);
    for pair in pairs {
        found.insert(pair.to.copy()?)?;
    }
    Ok(found.into_iter().collect(alloc)?)
}

/// Copies of the pairs that lead to the vertex.
fn leading_to(alloc: Global, pairs: &BTreeSet<Pair>, vertex: &Name) -> Result<Vec<Pair>, Memory>
    ensures { IfOk result (λ found.
        found.items ≡ filter (λ pair. same_name pair.to vertex.now) pairs.now.keys) }
{
    let mut found = Vec::new(alloc);
    for pair in pairs {
        if pair.to == *vertex {
            found.push(pair.copy()?)?;
        }
    }
    Ok(found)
}

/// Copies of the pairs that lead from the vertex.
fn leading_from(alloc: Global, pairs: &BTreeSet<Pair>, vertex: &Name) -> Result<Vec<Pair>, Memory>
    ensures { IfOk result (λ found.
        found.items ≡ filter (λ pair. same_name pair.from vertex.now) pairs.now.keys) }
{
    let mut found = Vec::new(alloc);
    for pair in pairs {
        if pair.from == *vertex {
            found.push(pair.copy()?)?;
        }
    }
    Ok(found)
}

/// Adds the pairs that two of these lead to over the vertex.
fn add_over(alloc: Global, reached: &mut BTreeSet<Pair>, vertex: &Name) -> Result<(), Memory>
    ensures { OnOk result ((pair : Pair) →
        Contains reached.new.keys pair ↔ IsPairOver reached.old.keys vertex.now pair) }
{
    let firsts = leading_to(alloc, reached, vertex)?;
    let seconds = leading_from(alloc, reached, vertex)?;
    add_composed(reached, &firsts, &seconds)
}

/// The pairs that one or more of these, one after another, lead to.
///
/// One round for each vertex that a pair leads to: it adds the pairs over that vertex to those that
/// were reached so far, so the time grows with the cube of the number of vertices.
///
/// Source: Warshall's algorithm (A Theorem on Boolean Matrices, Journal of the ACM 1962).
pub(crate) fn closure(alloc: Global, pairs: &[Pair]) -> Result<Vec<Pair>, Memory>
    ensures { IfOk result (λ all. AreExactly (IsReached pairs.now) all.items) }
{
    let mut reached = BTreeSet::new(alloc);
    add_all(&mut reached, pairs)?;
    let vertices = distinct_targets(alloc, pairs)?;
    for vertex in &vertices {
        add_over(alloc, &mut reached, vertex)?;
    }
    in_order(alloc, reached)
}
