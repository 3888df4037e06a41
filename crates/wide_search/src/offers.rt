//! Batches that are let wait.

ghost use Rattle.std.specs.Prelude.{◌≡◌, ℕ, ◌+◌, ◌<◌, ◌≤◌, max, length, OnOk, Some, slice_get};
ghost use Rattle.std.specs.Bool.{OnFalse, OnTrue};
ghost use Rattle.edge_store.specs.declared.edge.EdgeId.{EdgeId as EdgeMade};
ghost use Rattle.edge_store.specs.declared.edge.HalfEdge.{HalfEdge};
ghost use Rattle.edge_store.specs.Edges.{leaving, out_entry, outs_of, value_of};
ghost use Rattle.tree_insert.specs.Best.{IsAtLeast};
ghost use Rattle.wide_search.specs.Batches.{Gains};
ghost use Rattle.wide_search.specs.Spans.{HasRaised, IsOfSpan, IsOffered};

use crate::batch::Batch;
use crate::graph::{Graph, width_of};
use crate::waiting::Batches;
use delta_tree::NodeId;
use edge_store::{EdgeId, Out, Outs, Steps};
use rpq_base::Memory;
use std::sync::ledger::Ledger;

/// Roots that were lifted at a place, as gains from place `low` to before `high` of a list; the
/// width of the place; and the least value that one of them had there before, or none where one had
/// none.
#[derive(Clone, Copy)]
pub(crate) struct Span {
    pub(crate) id: NodeId,
    pub(crate) width: u64,
    pub(crate) low: usize,
    pub(crate) high: usize,
    pub(crate) least: Option<u64>,
}

/// Whether there is no value, or a lower one.
fn is_below(kept: Option<u64>, value: u64) -> bool
    ensures no { OnFalse result (IsAtLeast value kept) }
{
    match kept {
        Some(kept) => kept < value,
        None => true,
    }
}

/// From this place on the first one whose edge may have a value above the one before. Where there
/// was none before, each edge may.
fn next_place(outs: &Outs<'_>, place: usize, before: Option<u64>) -> usize
    ensures onward { place ≤ result }
    ensures within { result ≤ max place (length outs.now) }
    ensures skipped { (each : ℕ) (entry : HalfEdge × ℕ) → place ≤ each → each < result →
        slice_get outs.now each ≡ Some entry → IsAtLeast entry.1 before }
{
    match before {
        Some(number) => outs.next_above(place, number),
        None => place,
    }
}

/// Offers the gains of the span by an edge that leaves its place. Where the edge isn't wider than
/// what each of the roots had there before, it could give as much then already.
fn offer_out(batches: &mut Batches, graph: &Graph<'_>, span: Span, out: Out) -> Result<(), Memory>
    requires state { span.id.state < length graph.now.dfa.now.rows }
    requires level { span.width ≤ batches.old.level }
    requires there { value_of graph.now.store.now (leaving span.id.vertex (out_entry out).0)
        ≡ Some out.value }
    ensures gains { Gains batches.old batches.new (IsOfSpan graph.now span) }
    ensures offered { OnOk result (IsOffered graph.now span batches.new.waiting
        (leaving span.id.vertex (out_entry out).0)) }
{
    let before = span.id.state;
    let edge = EdgeId {
        from: span.id.vertex,
        label: out.label,
        to: out.to,
    };
    let Some(width) = width_of(graph, before, edge, out.value) else {
        return Ok(());
    };
    if !is_below(span.least, width) {
        return Ok(());
    }
    let Some(state) = graph.dfa.step(before, out.label) else {
        return Ok(());
    };
    let batch = Batch {
        width: span.width.min(width),
        edge,
        before,
        state,
        low: span.low,
        high: span.high,
    };
    batches.push(batch)
}

/// Offers the gains of the span by the edges that leave its place, and counts a step for each edge
/// that it looks at. Where no edge has a value above what each of the roots had there before, none
/// is looked at, and where it is so of a whole block of them, none of the block.
pub(crate) fn offer_outs<L: Ledger>(
    batches: &mut Batches,
    graph: &Graph<'_>,
    span: Span,
    steps: &mut Steps<L>,
) -> Result<(), Memory>
    requires raised { HasRaised graph.now }
    requires state { span.id.state < length graph.now.dfa.now.rows }
    requires level { span.width ≤ batches.old.level }
    ensures gains { Gains batches.old batches.new (IsOfSpan graph.now span) }
    ensures offered { OnOk result ((edge : EdgeMade) → edge.from ≡ span.id.vertex →
        IsOffered graph.now span batches.new.waiting edge) }
    ensures counted { steps.new
        ≤ steps.old + length (outs_of graph.now.store.now span.id.vertex) }
{
    let outs = graph.store.outs(span.id.vertex);
    if !is_below(span.least, outs.most()) {
        return Ok(());
    }
    let len = outs.len();
    let mut k = next_place(&outs, 0, span.least);
    while k < len {
        let out = outs.at(k, steps);
        offer_out(batches, graph, span, out)?;
        k = next_place(&outs, k + 1, span.least);
    }
    Ok(())
}
