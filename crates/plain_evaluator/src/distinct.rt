//! Edges, each once.

ghost use Rattle.std.specs.Prelude.{◌≡◌, ◌↔◌, IfOk, Contains};
ghost use Rattle.rpq_base.specs.Same.{same_edge};
ghost use Rattle.rpq_base.specs.declared.data.Edge.{Edge};
ghost use Rattle.rpq_model.specs.Relations.{values};

use rpq_base::{Edge, Memory};
use std::alloc::Global;
use std::cmp::Ordering;

/// Edges by source, label and target, so that equal ones are side by side.
fn compare_edges(edge: &Edge, other: &Edge) -> Ordering {
    edge.from
        .cmp(&other.from)
        .then(edge.label.cmp(&other.label))
        .then(edge.to.cmp(&other.to))
}

fn is_same(edge: &Edge, other: &Edge) -> bool
    ensures { result ≡ same_edge edge.now other.now }
{
    edge == other
}

/// The edges that are given, each once.
pub(crate) fn distinct_edges<'a>(alloc: Global, edges: &[&'a Edge]) -> Result<Vec<&'a Edge>, Memory>
    ensures { IfOk result (λ distinct. (edge : Edge) →
        Contains (values distinct.items) edge ↔ Contains (values edges.now) edge) }
{
    let mut distinct = Vec::from_slice(alloc, edges)?;
    distinct.sort_by(|edge, other| compare_edges(edge, other))?;
    distinct.dedup_by(|edge, kept| is_same(edge, kept));
    Ok(distinct)
}
