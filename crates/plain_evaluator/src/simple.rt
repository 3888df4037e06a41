//! The pairs that simple paths join, by going through the simple paths themselves.

ghost use Rattle.std.specs.Prelude.{◌≡◌, ◌&&◌, not, IfOk, OnOk, Contains};
ghost use Rattle.std.specs.List.{list_any};
ghost use Rattle.rpq_base.specs.Same.{same_name};
ghost use Rattle.rpq_base.specs.declared.data.Edge.{Edge};
ghost use Rattle.rpq_base.specs.declared.data.Pair.{Pair};
ghost use Rattle.path_syntax.specs.Expression.{expression};
ghost use Rattle.path_syntax.specs.Language.{In};
ghost use Rattle.rpq_model.specs.declared.mode.Mode.TheVariants.{Simple};
ghost use Rattle.rpq_model.specs.Answers.{IsJoinedBy};
ghost use Rattle.rpq_model.specs.Relations.{values, between, AreExactly, Adds};
ghost use Rattle.plain_evaluator.specs.Onwards.{unvisited, vertices_of, IsSameTrail};
ghost use Rattle.plain_evaluator.specs.Onwards.{IsOnwards, IsAlong, IsSimplyAlong};

use crate::relation::{in_order, pair_of};
use path_syntax::{Expr, accepts};
use rpq_base::{Edge, Label, Memory, Name, Pair, TryClone};
use std::alloc::Global;
use std::collections::BTreeSet;

/// What has been gone of a simple path: the vertices that it visits, and its word.
#[derive(Drop)]
struct Trail<'a> {
    visited: Vec<&'a Name>,
    word: Vec<Label>,
}

fn is_visited(visited: &[&Name], vertex: &Name) -> bool
    ensures { result ≡ list_any (λ each. same_name each.now vertex.now) visited.now }
{
    visited.iter().any(|each| **each == *vertex)
}

/// Whether the edge leads on from the vertex to one that isn't visited yet.
fn leads_on(edge: &Edge, at: &Name, visited: &[&Name]) -> bool
    ensures { result ≡ (same_name edge.now.from at.now
        && not (list_any (λ vertex. same_name vertex.now edge.now.to) visited.now)) }
{
    edge.from == *at && !is_visited(visited, &edge.to)
}

/// Adds the pair of the source and the edge's target, if the word is in the language.
fn add_if_accepted(
    alloc: Global,
    found: &mut BTreeSet<Pair>,
    expr: &Expr,
    word: &[Label],
    from: &Name,
    to: &Name,
) -> Result<(), Memory>
    ensures { OnOk result (Adds found.old.keys found.new.keys (λ pair.
        In (expression expr.now) word.now × (between from.now to.now ≡ pair))) }
{
    if accepts(alloc, expr, word)? {
        found.insert(pair_of(from, to)?)?;
    }
    Ok(())
}

/// Adds the pairs of the source and the vertices to which a path leads that begins with the edge
/// and visits no vertex that is visited, where its word after the one so far is in the language.
#[cycle(onwards)]
fn add_along<'a>(
    alloc: Global,
    found: &mut BTreeSet<Pair>,
    expr: &Expr,
    edges: &[&'a Edge],
    from: &Name,
    trail: &mut Trail<'a>,
    edge: &'a Edge,
) -> Result<(), Memory>
    requires { Contains
        (unvisited (values edges.now) (vertices_of trail.old.visited.items)) edge.now }
    ensures added { OnOk result (Adds found.old.keys found.new.keys (IsAlong
        (unvisited (values edges.now) (vertices_of trail.old.visited.items))
        (In (expression expr.now)) from.now trail.old.word.items edge.now)) }
    ensures same { OnOk result (IsSameTrail trail.old trail.new) }
{
    trail.word.push(edge.label.copy()?)?;
    trail.visited.push(&edge.to)?;
    add_if_accepted(alloc, found, expr, &trail.word, from, &edge.to)?;
    add_onwards(alloc, found, expr, edges, from, trail, &edge.to)?;
    trail.visited.pop();
    trail.word.pop();
    Ok(())
}

/// Adds the pairs of the source and the vertices to which a path leads on that visits no vertex
/// that is visited, where its word after the one so far is in the language.
#[cycle(onwards)]
fn add_onwards<'a>(
    alloc: Global,
    found: &mut BTreeSet<Pair>,
    expr: &Expr,
    edges: &[&'a Edge],
    from: &Name,
    trail: &mut Trail<'a>,
    at: &Name,
) -> Result<(), Memory>
    ensures added { OnOk result (Adds found.old.keys found.new.keys (IsOnwards
        (unvisited (values edges.now) (vertices_of trail.old.visited.items))
        (In (expression expr.now)) from.now trail.old.word.items at.now)) }
    ensures same { OnOk result (IsSameTrail trail.old trail.new) }
{
    for edge in edges {
        if leads_on(edge, at, &trail.visited) {
            add_along(alloc, found, expr, edges, from, trail, *edge)?;
        }
    }
    Ok(())
}

/// Adds the pairs that a simple path joins which begins with the edge and whose word is in the
/// language.
fn add_simply_along<'a>(
    alloc: Global,
    found: &mut BTreeSet<Pair>,
    expr: &Expr,
    edges: &[&'a Edge],
    edge: &'a Edge,
) -> Result<(), Memory>
    requires { Contains (values edges.now) edge.now }
    ensures { OnOk result (Adds found.old.keys found.new.keys
        (IsSimplyAlong (values edges.now) (In (expression expr.now)) edge.now)) }
{
    if edge.to == edge.from {
        return Ok(());
    }
    let mut visited = Vec::new(alloc);
    visited.push(&edge.from)?;
    let word = Vec::new(alloc);
    let mut trail = Trail { visited, word };
    add_along(alloc, found, expr, edges, &edge.from, &mut trail, edge)
}

/// The pairs that a simple path of the edges joins whose word is in the language of the expression.
///
/// It goes through all simple paths, and tries the word of each by [`accepts`]: exponential in the
/// number of edges, as the problem is NP-complete for some languages. An edge that is given twice
/// is gone twice. The recursion is as deep as the longest of the paths.
///
/// Source: Mendelzon and Wood, Finding Regular Simple Paths in Graph Databases, SIAM Journal on
/// Computing 1995.
pub(crate) fn joined_simply(
    alloc: Global,
    expr: &Expr,
    edges: &[&Edge],
) -> Result<Vec<Pair>, Memory>
    ensures { IfOk result (λ pairs.
        AreExactly (IsJoinedBy (values edges.now) (In (expression expr.now)) Simple) pairs.items) }
{
    let mut found = BTreeSet::new(alloc);
    for edge in edges {
        add_simply_along(alloc, &mut found, expr, edges, *edge)?;
    }
    in_order(alloc, found)
}
