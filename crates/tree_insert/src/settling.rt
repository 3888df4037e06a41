//! Taking the tries that wait until none is left.

ghost use Rattle.std.specs.Prelude.{◌≡◌, ℕ, ◌+◌, ◌^◌, ◌<◌, ◌≤◌, [], ◌∷◌, max, length, All, OnOk, Some, slice_get};
ghost use Rattle.dfa_table.specs.DfaValue.{step_of};
ghost use Rattle.edge_store.specs.declared.edge.HalfEdge.{HalfEdge};
ghost use Rattle.edge_store.specs.Edges.{outs_of, value_of};
ghost use Rattle.delta_tree.specs.Nodes.{TreeValue};
ghost use Rattle.delta_tree.specs.Changes.{AreShifts, shift_ids};
ghost use Rattle.tree_insert.specs.Best.{IsAtLeast};
ghost use Rattle.tree_insert.specs.Trees.{CountsOuts, IsRisen};
ghost use Rattle.tree_insert.specs.Waiting.{Gains};
ghost use Rattle.tree_insert.specs.UnderWay.{AreFirm, AreServed, CanBegin, IsCounted, IsReady};
ghost use Rattle.tree_insert.specs.UnderWay.{IsServedFrom, IsTaken, IsUnderWay, Leaves, Rises};
ghost use Rattle.tree_insert.specs.UnderWay.{RaisesOnce};

use crate::offers::{is_below, offer_out};
use crate::search::Search;
use crate::waiting::{Rise, Waiting};
use delta_tree::PathTree;
use dfa_table::Dfa;
use edge_store::{EdgeStore, Outs, Steps};
use rpq_base::Memory;
use std::sync::ledger::Ledger;

/// From this place on the first one whose edge may have a value above the one before. Where there
/// was none before, each edge may.
fn next_place(outs: &Outs<'_>, place: usize, before: Option<u64>) -> usize
    ensures onward { place ≤ result }
    ensures within { result ≤ max place (length outs.now) }
    ensures skipped { (each : ℕ) (entry : HalfEdge × ℕ) → place ≤ each → each < result →
        slice_get outs.now each ≡ Some entry → IsAtLeast entry.1 before }
{
    match before {
        Some(number) => outs.next_above(place, number),
        None => place,
    }
}

/// Offers the tries by the edges that leave a node that rose, and counts a step for each edge that
/// it looks at. An edge whose value isn't above the one that the node had before could give as much
/// then already: where this is so of all edges, none is looked at, and where it is so of a whole
/// block of them, none of the block.
fn offer_outs<T: PathTree, L: Ledger>(
    search: &mut Search,
    tree: &T,
    store: &EdgeStore,
    dfa: &Dfa,
    rise: Rise,
    steps: &mut Steps<L>,
) -> Result<(), Memory>
    requires state { rise.id.state < length dfa.now.rows }
    requires level { rise.value ≤ search.old.level }
    ensures gains { Gains search.old search.new
        (Leaves (value_of store.now) dfa.now rise.id rise.value) }
    ensures served { OnOk result
        (IsServedFrom (value_of store.now) (step_of dfa.now) (T.tree tree.now) search.new.waiting
        rise.id rise.value rise.before) }
    ensures counted { steps.new ≤ steps.old + length (outs_of store.now rise.id.vertex) }
{
    let outs = store.outs(rise.id.vertex);
    if !is_below(rise.before, outs.most()) {
        return Ok(());
    }
    let len = outs.len();
    let mut k = next_place(&outs, 0, rise.before);
    while k < len {
        let out = outs.at(k, steps);
        offer_out(search, tree, dfa, rise, out)?;
        k = next_place(&outs, k + 1, rise.before);
    }
    Ok(())
}

/// Takes a try whose value is the level. Where it raises its target, the target gets its value, and
/// the tries by the edges that leave the target are offered.
fn follow<T: PathTree, L: Ledger>(
    search: &mut Search,
    tree: &mut T,
    store: &EdgeStore,
    dfa: &Dfa,
    taken: Waiting,
    steps: &mut Steps<L>,
) -> Result<(), Memory>
    requires taken { IsTaken (value_of store.now) dfa.now (T.tree tree.old) search.old taken }
    ensures level { search.new.level ≡ search.old.level }
    ensures puts { (T.tree tree.new).puts ≤ (T.tree tree.old).puts + 1 }
    ensures raises { OnOk result
        (RaisesOnce search.old search.new (T.tree tree.old) (T.tree tree.new)) }
    ensures ready { (first : TreeValue) →
        IsReady (value_of store.now) dfa.now first (T.tree tree.old) search.old.waiting →
        IsReady (value_of store.now) dfa.now first (T.tree tree.new) search.new.waiting }
    ensures counted { (first : TreeValue) (start : ℕ) → Rises first (T.tree tree.old) →
        IsCounted store.now first (T.tree tree.old) (shift_ids search.old.shifts) search.old.level
        start steps.old →
        IsCounted store.now first (T.tree tree.new) (shift_ids search.new.shifts) search.new.level
        start steps.new }
    ensures shifts { OnOk result ((first : TreeValue) →
        AreFirm (T.tree tree.old) search.old.level (shift_ids search.old.shifts) →
        AreShifts first (T.tree tree.old) search.old.shifts →
        AreShifts first (T.tree tree.new) search.new.shifts) }
    ensures served { OnOk result (
        AreServed (value_of store.now) (step_of dfa.now) (T.tree tree.old)
        (taken ∷ search.old.waiting) →
        AreServed (value_of store.now) (step_of dfa.now) (T.tree tree.new) search.new.waiting) }
    ensures beside { T.beside tree.new ≡ T.beside tree.old }
{
    let Some(shift) = tree.raise(taken.step(), taken.value)? else {
        return Ok(());
    };
    search.add_shift(shift)?;
    let rise = Rise {
        id: shift.id,
        before: shift.before,
        value: taken.value,
    };
    offer_outs(search, tree, store, dfa, rise, steps)
}

/// Takes the tries that wait, the greatest value first, until none is left.
///
/// A place is raised once at most: a try that is taken later has no greater value. It ends, since
/// each raise is reported, and there is no memory for endless reports.
pub(crate) fn settle<T: PathTree, L: Ledger>(
    search: &mut Search,
    tree: &mut T,
    store: &EdgeStore,
    dfa: &Dfa,
    steps: &mut Steps<L>,
) -> Result<(), Memory>
    requires begins { CanBegin (value_of store.now) dfa.now (T.tree tree.old) search.old }
    ensures tree { IsUnderWay (value_of store.now) (step_of dfa.now) (T.tree tree.old)
        (T.tree tree.new) }
    ensures puts { (T.tree tree.new).puts < (T.tree tree.old).puts + 2 ^ 64 }
    ensures counted { CountsOuts store.now (T.tree tree.old) (T.tree tree.new) steps.old steps.new }
    ensures risen { All (IsRisen (T.tree tree.old) (T.tree tree.new))
        (shift_ids search.new.shifts) }
    ensures shifts { OnOk result (AreShifts (T.tree tree.old) (T.tree tree.new) search.new.shifts) }
    ensures served { OnOk result (
        AreServed (value_of store.now) (step_of dfa.now) (T.tree tree.old) search.old.waiting →
        AreServed (value_of store.now) (step_of dfa.now) (T.tree tree.new) []) }
    ensures beside { T.beside tree.new ≡ T.beside tree.old }
{
    while let Some(taken) = search.take() {
        follow(search, tree, store, dfa, taken, steps)?;
        search.fits(); // called for its clauses
    }
    Ok(())
}
