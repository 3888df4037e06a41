//! The ends that came or went, by the nodes with a final state that did, in their order.

ghost use Rattle.std.specs.Prelude.{◌≡◌, ◌<◌, ◌≤◌, ℕ, List, [], length, slice_index_or, take};
ghost use Rattle.std.specs.Prelude.{All, OnOk, nat_lt, true, false};
ghost use Rattle.place_table.specs.Table.{TableValue};
ghost use Rattle.end_log.specs.declared.moved.Moved.{Moved as MovedMade};
ghost use Rattle.end_log.specs.Log.{AreEndChangesIn};
ghost use Rattle.end_log.specs.Moves.{AreFinalMoves, HasFinals, IsInOrder, end_of};
ghost use Rattle.end_log.specs.Runs.{end_unless, is_beside, is_standing, new_among};
ghost use Rattle.end_log.specs.Runs.{standing};

use crate::listing::{is_final, push_some, put_in_order};
use crate::moved::Moved;
use crate::states::StatesAt;
use delta_tree::NodeId;
use dfa_table::Dfa;
use place_table::PlaceTable;
use rpq_base::Memory;
use source_tree::{EndChange, Outcome};

/// Whether the root of a node has one at its vertex with this state, and the state is final.
fn is_standing(table: &PlaceTable, dfa: &Dfa, moved: Moved, state: u32) -> bool
    ensures { result ≡ is_standing dfa.now table.now moved state }
{
    let id = NodeId {
        vertex: moved.vertex,
        state,
    };
    is_final(dfa, state) && table.value_at(moved.root, id).is_some()
}

/// The number of these states that are final and with which the root of a node has one at its
/// vertex.
fn count_standing(table: &PlaceTable, dfa: &Dfa, states: &[u32], moved: Moved) -> usize
    ensures { result ≡ length (standing dfa.now table.now moved states.now) }
{
    let mut count = 0;
    for state in states {
        if is_standing(table, dfa, moved, *state) {
            count += 1;
        }
    }
    count
}

/// How many of the nodes that came or went stand there now: all that came, and none that went.
fn new_among(outcome: Outcome, len: usize) -> usize
    ensures { result ≡ new_among outcome len }
{
    match outcome {
        Outcome::Lost => 0,
        Outcome::Gained => len,
    }
}

/// The end that came or went with so many nodes of one root at one vertex, unless another of its
/// nodes with a final state stands there beside them.
fn end_of_run(
    table: &PlaceTable,
    dfa: &Dfa,
    states: &[u32],
    outcome: Outcome,
    first: Moved,
    len: usize,
) -> Option<EndChange>
    ensures { result ≡ end_unless (nat_lt (new_among outcome len)
        (length (standing dfa.now table.now first states.now))) (end_of outcome first) }
{
    if new_among(outcome, len) < count_standing(table, dfa, states, first) {
        return None;
    }
    Some(EndChange {
        root: first.root,
        vertex: first.vertex,
        outcome,
    })
}

/// Whether both are nodes of one root at one vertex.
fn is_beside(first: Moved, second: Moved) -> bool
    ensures { result ≡ is_beside first second }
{
    first.vertex == second.vertex && first.root == second.root
}

/// The number of nodes of this one's root at its vertex at the head of the list.
fn run_len(first: Moved, moved: &[Moved]) -> usize
    ensures within { result ≤ length moved.now }
    ensures run { All (λ (each : MovedMade). is_beside first each ≡ true) (take result moved.now) }
    ensures end { (d : MovedMade) → result < length moved.now →
        is_beside first (slice_index_or moved.now result d) ≡ false }
{
    let mut len = 0;
    while len < moved.len() && is_beside(first, moved[len]) {
        len += 1;
    }
    len
}

/// Logs the ends that came or went with these nodes, which have final states.
fn log_by_runs(
    table: &PlaceTable,
    dfa: &Dfa,
    outcome: Outcome,
    moved: &[Moved],
    seen: &mut StatesAt,
    log: &mut Vec<EndChange>,
) -> Result<(), Memory>
    ensures { OnOk result ((finals : List ℕ) (old : TableValue) → HasFinals dfa.now finals →
        AreFinalMoves finals outcome old table.now moved.now → IsInOrder moved.now →
        log.old.items ≡ [] → AreEndChangesIn finals old table.now log.new.items) }
{
    seen.forget();
    let mut rest = moved;
    while let Some(first) = rest.first() {
        let first = *first;
        let (run, after) = rest.split_at(run_len(first, rest));
        seen.look_at(table, first.vertex)?;
        let end = end_of_run(table, dfa, seen.states(), outcome, first, run.len());
        push_some(log, end)?;
        rest = after;
    }
    Ok(())
}

/// Puts the nodes that came or went, which have final states, in order, and logs the ends that did
/// with them.
pub(crate) fn log_moved(
    table: &PlaceTable,
    dfa: &Dfa,
    outcome: Outcome,
    moved: &mut Vec<Moved>,
    seen: &mut StatesAt,
    log: &mut Vec<EndChange>,
) -> Result<(), Memory>
    ensures { OnOk result ((finals : List ℕ) (old : TableValue) → HasFinals dfa.now finals →
        AreFinalMoves finals outcome old table.now moved.old.items → log.old.items ≡ [] →
        AreEndChangesIn finals old table.now log.new.items) }
{
    put_in_order(moved);
    log_by_runs(table, dfa, outcome, moved, seen, log)
}
