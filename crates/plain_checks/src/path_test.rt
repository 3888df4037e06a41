//! Whether edges are a path that a query takes.

ghost use Rattle.std.specs.Prelude.{◌≡◌, ◌↔◌, IfOk, IsTrue};
ghost use Rattle.rpq_model.specs.Path.{word_of};
ghost use Rattle.plain_checks.specs.PathTests.{edges_of, leads_to, avoids, are_apart};
ghost use Rattle.plain_checks.specs.PathTests.{takes_path, Fits};

use path_syntax::accepts;
use rpq_base::{Edge, Label, Memory, Name, Pair, TryClone};
use rpq_model::{Mode, QueryDef};
use std::alloc::Global;

/// Whether the edges lead from one vertex to another.
fn leads(edges: &[&Edge], from: &Name, to: &Name) -> bool
    ensures { result ≡ leads_to from.now (edges_of edges.now) to.now }
{
    let mut vertex = from;
    for place in 0..edges.len() {
        let edge = edges[place];
        if edge.from != *vertex {
            return false;
        }
        vertex = &edge.to;
    }
    vertex == to
}

/// Whether none of the edges leads to the vertex.
fn avoids(edges: &[&Edge], vertex: &Name) -> bool
    ensures { result ≡ avoids vertex.now (edges_of edges.now) }
{
    for place in 0..edges.len() {
        let edge = edges[place];
        if edge.to == *vertex {
            return false;
        }
    }
    true
}

/// Whether no two of the edges lead to the same vertex.
fn are_apart(edges: &[&Edge]) -> bool
    ensures { result ≡ are_apart (edges_of edges.now) }
{
    for place in 0..edges.len() {
        let edge = edges[place];
        if !avoids(&edges[place + 1..], &edge.to) {
            return false;
        }
    }
    true
}

/// Whether a query with this mode takes a path from the vertex. For a simple path, each two of its
/// vertices are compared.
fn takes(mode: Mode, edges: &[&Edge], from: &Name) -> bool
    ensures { result ≡ takes_path mode from.now (edges_of edges.now) }
{
    match mode {
        Mode::Arbitrary => true,
        Mode::Simple => avoids(edges, from) && are_apart(edges),
    }
}

/// The labels of the edges, copied.
fn word_of(alloc: Global, edges: &[&Edge]) -> Result<Vec<Label>, Memory>
    ensures { IfOk result (λ word. word.items ≡ word_of (edges_of edges.now)) }
{
    let mut word = Vec::new(alloc);
    for place in 0..edges.len() {
        let edge = edges[place];
        word.push(edge.label.copy()?)?;
    }
    Ok(word)
}

/// Whether the edges are a path for the pair that the query takes.
pub(crate) fn fits(
    alloc: Global,
    query: &QueryDef,
    pair: &Pair,
    edges: &[&Edge],
) -> Result<bool, Memory>
    ensures { IfOk result (λ yes. IsTrue yes ↔ Fits query.now pair.now (edges_of edges.now)) }
{
    let word = word_of(alloc, edges)?;
    let is_word = accepts(alloc, &query.expr, &word)?;
    let leads = leads(edges, &pair.from, &pair.to);
    let takes = takes(query.mode, edges, &pair.from);
    Ok(!edges.is_empty() & is_word & leads & takes)
}
