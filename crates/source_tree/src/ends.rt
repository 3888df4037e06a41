//! The ends that a change takes away or brings, and the log of them.

ghost use Rattle.std.specs.Prelude.{◌≡◌, ◌≢◌, ◌↔◌, ◌<◌, ◌≤◌, ◌∷◌, ℕ, [], length, slice_index_or, take, is_some};
ghost use Rattle.std.specs.Prelude.{All, Any, IsTrue, OnOk};
ghost use Rattle.delta_tree.specs.Nodes.{TreeValue, node_id};
ghost use Rattle.delta_tree.specs.Changes.{AreShifts};
ghost use Rattle.delta_tree.specs.declared.node.Shift.{Shift};
ghost use Rattle.source_tree.specs.Ends.{AreEndChanges, end_in};
ghost use Rattle.source_tree.specs.Product.{AreFinals, AreHeld};
ghost use Rattle.source_tree.specs.Telling.{HasBeside, IsBeside, IsByVertex, IsInOrder, IsRun, Logs};
ghost use Rattle.source_tree.specs.Telling.{TellShifted, Widens, has_place, outcome_of};

use crate::change::{EndChange, Outcome};
use crate::product::ProductGraph;
use crate::room::add;
use delta_tree::{NodeId, Shift, Tree};
use rpq_base::Memory;

/// What becomes of an end, by whether there is one before and whether there is one after, if it
/// comes or goes.
fn outcome_of(had: bool, has: bool) -> Option<Outcome>
    ensures { result ≡ outcome_of had has }
{
    match (had, has) {
        (true, false) => Some(Outcome::Lost),
        (false, true) => Some(Outcome::Gained),
        _ => None,
    }
}

/// What becomes of the end of the shift's vertex, if it comes or goes, where its state alone is
/// final.
fn outcome_by(shift: Shift) -> Option<Outcome>
    ensures { result ≡ outcome_of (is_some shift.before) (is_some shift.after) }
{
    outcome_of(shift.before.is_some(), shift.after.is_some())
}

/// Whether a final state had a node before, and whether one has a node after, with a shift more.
fn with_shift(product: &ProductGraph<'_>, shift: Shift, ends: (bool, bool)) -> (bool, bool)
    requires finals { AreFinals product.now.dfa product.now.finals }
    ensures { Widens product.now.finals shift ends result }
{
    if !product.is_final(shift.id.state) {
        return ends;
    }
    let before = shift.before.is_some();
    let after = shift.after.is_some();
    (ends.0 || before, ends.1 || after)
}

/// Whether, by these shifts, a final state had a node before, and whether one has a node after.
fn shifted_ends(product: &ProductGraph<'_>, run: &[Shift]) -> (bool, bool)
    requires finals { AreFinals product.now.dfa product.now.finals }
    ensures { TellShifted product.now.finals run.now result }
{
    let mut ends = (false, false);
    for shift in run {
        ends = with_shift(product, *shift, ends);
    }
    ends
}

/// Whether one of the shifts is of this place.
fn has_place(run: &[Shift], id: NodeId) -> bool
    ensures { result ≡ has_place run.now id }
{
    run.iter().any(|shift| shift.id == id)
}

/// Whether a node with a final state stands at this place, which is one of the vertex, and none of
/// the shifts is of it. This takes a look-up where the rest is so.
fn is_beside(
    tree: &Tree,
    product: &ProductGraph<'_>,
    vertex: u32,
    run: &[Shift],
    id: NodeId,
) -> bool
    requires finals { AreFinals product.now.dfa product.now.finals }
    ensures { IsTrue result ↔ IsBeside product.now.finals tree.now vertex run.now id }
{
    if id.vertex != vertex {
        return false;
    }
    if !product.is_final(id.state) {
        return false;
    }
    if has_place(run, id) {
        return false;
    }
    tree.value_of(id.vertex, id.state).is_some()
}

/// Whether there is such a node with one of these states.
fn stands_with(
    tree: &Tree,
    product: &ProductGraph<'_>,
    vertex: u32,
    run: &[Shift],
    states: &[u32],
) -> bool
    requires finals { AreFinals product.now.dfa product.now.finals }
    ensures { IsTrue result ↔ Any (λ (state : ℕ).
        IsBeside product.now.finals tree.now vertex run.now (node_id vertex state)) states.now }
{
    for state in states {
        let id = NodeId {
            vertex,
            state: *state,
        };
        if is_beside(tree, product, vertex, run, id) {
            return true;
        }
    }
    false
}

/// Whether there is such a node among those of the tree.
fn stands_in(tree: &Tree, product: &ProductGraph<'_>, vertex: u32, run: &[Shift]) -> bool
    requires finals { AreFinals product.now.dfa product.now.finals }
    ensures { IsTrue result ↔ HasBeside product.now.finals tree.now vertex run.now }
{
    for k in 0..tree.len() {
        let id = tree.node_at(k);
        if is_beside(tree, product, vertex, run, id) {
            return true;
        }
    }
    false
}

/// Whether the vertex has a node with a final state that none of its shifts is of, so that it stood
/// before too. Its state is one with which some tree had a node there before. Where the tree has
/// fewer nodes than there are such states, these are gone over.
fn stands_beside(tree: &Tree, product: &ProductGraph<'_>, vertex: u32, run: &[Shift]) -> bool
    requires finals { AreFinals product.now.dfa product.now.finals }
    ensures { (old : TreeValue) → IsRun old tree.now vertex run.now →
        AreHeld product.now.holders old →
        IsTrue result ↔ HasBeside product.now.finals tree.now vertex run.now }
{
    let states = product.states_at(vertex);
    let held = states.len();
    let own = tree.len();
    if own < held {
        return stands_in(tree, product, vertex, run);
    }
    stands_with(tree, product, vertex, run, states)
}

/// What becomes of the end of the vertex, if it comes or goes, where these are its shifts. Where
/// they don't tell that it stays, another node with a final state, which none of them is of, does.
fn outcome_at(
    tree: &Tree,
    product: &ProductGraph<'_>,
    vertex: u32,
    run: &[Shift],
) -> Option<Outcome>
    requires finals { AreFinals product.now.dfa product.now.finals }
    ensures { (old : TreeValue) → IsRun old tree.now vertex run.now →
        AreHeld product.now.holders old →
        result ≡ outcome_of (is_some (end_in product.now.finals old vertex))
        (is_some (end_in product.now.finals tree.now vertex)) }
{
    let ends = shifted_ends(product, run);
    let Some(outcome) = outcome_of(ends.0, ends.1) else {
        return None;
    };
    if stands_beside(tree, product, vertex, run) {
        return None;
    }
    Some(outcome)
}

/// Logs the end of the vertex with its outcome, if it comes or goes.
fn log_end(
    log: &mut Vec<EndChange>,
    root: u32,
    vertex: u32,
    outcome: Option<Outcome>,
) -> Result<(), Memory>
    ensures { OnOk result (Logs root vertex outcome log.old.items log.new.items) }
{
    match outcome {
        Some(outcome) => add(
            log,
            EndChange {
                root,
                vertex,
                outcome,
            },
        ),
        None => Ok(()),
    }
}

/// Logs the ends that come or go where this state alone is final: each shift with it is one of a
/// vertex.
fn log_by_one(
    root: u32,
    state: u32,
    shifts: &[Shift],
    log: &mut Vec<EndChange>,
) -> Result<(), Memory>
    ensures { OnOk result ((old new : TreeValue) → AreShifts old new shifts.now →
        log.old.items ≡ [] → AreEndChanges root (end_in (state ∷ []) old)
        (end_in (state ∷ []) new) log.new.items) }
{
    for shift in shifts {
        if shift.id.state == state {
            log_end(log, root, shift.id.vertex, outcome_by(*shift))?;
        }
    }
    Ok(())
}

/// The number of shifts of this vertex at the head of the list.
fn run_len(vertex: u32, shifts: &[Shift]) -> usize
    ensures within { result ≤ length shifts.now }
    ensures run { All (λ (each : Shift). each.id.vertex ≡ vertex) (take result shifts.now) }
    ensures end { (d : Shift) → result < length shifts.now →
        (slice_index_or shifts.now result d).id.vertex ≢ vertex }
{
    let mut len = 0;
    while len < shifts.len() && shifts[len].id.vertex == vertex {
        len += 1;
    }
    len
}

/// Logs the ends that come or go, where the shifts of a vertex stand side by side.
fn log_by_runs(
    tree: &Tree,
    product: &ProductGraph<'_>,
    shifts: &[Shift],
    log: &mut Vec<EndChange>,
) -> Result<(), Memory>
    requires finals { AreFinals product.now.dfa product.now.finals }
    ensures { OnOk result ((old : TreeValue) → AreShifts old tree.now shifts.now →
        AreHeld product.now.holders old → IsByVertex shifts.now → log.old.items ≡ [] →
        AreEndChanges tree.now.root (end_in product.now.finals old)
        (end_in product.now.finals tree.now) log.new.items) }
{
    let mut rest = shifts;
    while let Some(first) = rest.first() {
        let vertex = first.id.vertex;
        let (run, after) = rest.split_at(run_len(vertex, rest));
        let outcome = outcome_at(tree, product, vertex, run);
        log_end(log, tree.root(), vertex, outcome)?;
        rest = after;
    }
    Ok(())
}

/// Logs the ends that come or go into an empty list. Where one state is final, this takes no
/// look-up.
pub(crate) fn log_ends(
    tree: &Tree,
    product: &ProductGraph<'_>,
    shifts: &[Shift],
    log: &mut Vec<EndChange>,
) -> Result<(), Memory>
    requires finals { AreFinals product.now.dfa product.now.finals }
    ensures { OnOk result ((old : TreeValue) → AreShifts old tree.now shifts.now →
        AreHeld product.now.holders old → IsInOrder product.now.finals shifts.now →
        log.old.items ≡ [] → AreEndChanges tree.now.root (end_in product.now.finals old)
        (end_in product.now.finals tree.now) log.new.items) }
{
    let finals = product.final_states();
    if finals.len() == 1 {
        log_by_one(tree.root(), finals[0], shifts, log)
    } else {
        log_by_runs(tree, product, shifts, log)
    }
}
