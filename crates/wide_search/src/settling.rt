//! Taking the batches that wait until none is left.

ghost use Rattle.std.specs.Prelude.{◌≡◌, ℕ, ◌+◌, ◌∷◌, ◌≤◌, [], length, Contains, IfOk, OnOk};
ghost use Rattle.dfa_table.specs.DfaValue.{IsDfa};
ghost use Rattle.tree_insert.specs.Best.{IsAtLeast};
ghost use Rattle.place_table.specs.declared.gain.Gain.{Gain as GainMade};
ghost use Rattle.place_table.specs.Lifts.{CanLift};
ghost use Rattle.wide_search.specs.Batches.{try_of};
ghost use Rattle.wide_search.specs.Ready.{GainsOrStays, IsLiftedBy, IsUnderWay, Start, StandsIn, held};
ghost use Rattle.wide_search.specs.Spans.{HasRaised};
ghost use Rattle.edge_store.specs.Edges.{Edges};
ghost use Rattle.place_table.specs.Table.{TableValue, tree_in};
ghost use Rattle.wide_search.specs.Counts.{CountsPlaces};
ghost use Rattle.wide_search.specs.Lifts.{ReportsLifts};

use crate::batch::Batch;
use crate::graph::Graph;
use crate::lifts::add_lifts;
use crate::offers::{Span, offer_outs};
use crate::room::Room;
use edge_store::Steps;
use place_table::{Gain, PlaceTable};
use rpq_base::Memory;
use std::sync::ledger::Ledger;

/// The lesser of two values, or none where one is none.
fn lesser(first: Option<u64>, second: Option<u64>) -> Option<u64>
    ensures first { (number : ℕ) → IsAtLeast number result → IsAtLeast number first }
    ensures second { (number : ℕ) → IsAtLeast number result → IsAtLeast number second }
{
    match (first, second) {
        (Some(first), Some(second)) => Some(first.min(second)),
        _ => None,
    }
}

/// The least value that a root of these gains had before, or none where one had none.
fn least_before(gains: &[Gain]) -> Option<u64>
    ensures { (gain : GainMade) (number : ℕ) → Contains gains.now gain →
        IsAtLeast number result → IsAtLeast number gain.before }
{
    let mut least = Some(u64::MAX);
    for gain in gains {
        least = lesser(least, gain.before);
    }
    least
}

/// Takes the gains of a batch on: the roots that are lifted come behind all other gains.
fn lift(gains: &mut Vec<Gain>, table: &mut PlaceTable, batch: Batch) -> Result<Span, Memory>
    requires stands { StandsIn gains.old.items batch }
    requires lifts { CanLift table.old (try_of batch) batch.width (held gains.old.items batch) }
    ensures { IfOk result (λ span.
        IsLiftedBy table.old table.new gains.old.items gains.new.items batch span) }
{
    let step = batch.step();
    let low = gains.len();
    table.lift_all(step, batch.width, gains, batch.low, batch.high)?;
    let high = gains.len();
    Ok(Span {
        id: step.to,
        width: batch.width,
        low,
        high,
        least: least_before(&gains[low..]),
    })
}

/// Takes a batch whose width is the level. Where its target isn't settled, the gains are taken on
/// there, and the roots that were lifted are offered by the edges that leave it.
fn follow<L: Ledger>(
    room: &mut Room,
    table: &mut PlaceTable,
    graph: &Graph<'_>,
    taken: Batch,
    steps: &mut Steps<L>,
) -> Result<(), Memory>
    requires raised { HasRaised graph.now }
    requires level { room.old.batches.level ≡ taken.width }
    requires ready { (start : Start) × IsUnderWay graph.now start table.old room.old.gains.items
        (taken ∷ room.old.batches.waiting) room.old.batches.level }
    ensures ready { OnOk result ((start : Start) →
        IsUnderWay graph.now start table.old room.old.gains.items
        (taken ∷ room.old.batches.waiting) room.old.batches.level →
        IsUnderWay graph.now start table.new room.new.gains.items
        room.new.batches.waiting room.new.batches.level) }
    ensures more { OnOk result (GainsOrStays room.old.gains.items room.new.gains.items
        room.old.batches room.new.batches) }
    ensures lifts { OnOk result ((first : TableValue) →
        ReportsLifts first table.old room.old.lifts.items →
        ReportsLifts first table.new room.new.lifts.items) }
    ensures counted { OnOk result ((start : Start) (begin : ℕ) →
        IsUnderWay graph.now start table.old room.old.gains.items
        (taken ∷ room.old.batches.waiting) room.old.batches.level →
        CountsPlaces graph.now.store.now start.trees (tree_in table.old) begin steps.old →
        CountsPlaces graph.now.store.now start.trees (tree_in table.new) begin steps.new) }
{
    graph.dfa.states(); // called for its clauses
    if table.is_marked(taken.step().to) {
        return Ok(());
    }
    let span = lift(&mut room.gains, table, taken)?;
    add_lifts(&mut room.lifts, span.id, &room.gains[span.low..])?;
    if span.low == span.high {
        return Ok(());
    }
    offer_outs(&mut room.batches, graph, span, steps)
}

/// Takes the batches that wait, the greatest width first, until none is left.
///
/// A place is settled once: a batch that is taken later is no wider. It ends, since a batch that
/// lifts nobody lets none wait, and there is no memory for endless gains.
pub(crate) fn settle<L: Ledger>(
    room: &mut Room,
    table: &mut PlaceTable,
    graph: &Graph<'_>,
    steps: &mut Steps<L>,
) -> Result<(), Memory>
    requires raised { HasRaised graph.now }
    requires ready { (start : Start) × IsUnderWay graph.now start table.old room.old.gains.items
        room.old.batches.waiting room.old.batches.level }
    ensures ready { OnOk result ((start : Start) →
        IsUnderWay graph.now start table.old room.old.gains.items room.old.batches.waiting
        room.old.batches.level →
        IsUnderWay graph.now start table.new room.new.gains.items [] 0) }
    ensures lifts { OnOk result ((first : TableValue) →
        ReportsLifts first table.old room.old.lifts.items →
        ReportsLifts first table.new room.new.lifts.items) }
    ensures counted { OnOk result ((start : Start) (begin : ℕ) →
        IsUnderWay graph.now start table.old room.old.gains.items
        room.old.batches.waiting room.old.batches.level →
        CountsPlaces graph.now.store.now start.trees (tree_in table.old) begin steps.old →
        CountsPlaces graph.now.store.now start.trees (tree_in table.new) begin steps.new) }
{
    while let Some(taken) = room.batches.take() {
        follow(room, table, graph, taken, steps)?;
        room.batches.fits(); // called for its clauses
    }
    Ok(())
}
