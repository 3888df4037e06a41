//! A change, taken by the store and then by the trees that it may touch.

ghost use Rattle.std.specs.Prelude.{◌≡◌, ◌≤◌, ◌<◌, ◌^◌, Bool, IfOk, OnOk, Some, false};
ghost use Rattle.edge_store.specs.Edges.{HasSameValues};
ghost use Rattle.delta_forest.specs.Changes.{Applies, RaisesSmall, TakesChange};
ghost use Rattle.source_tree.specs.Product.{AreFinals};
ghost use Rattle.delta_forest.specs.Keeping.{IsKept};
ghost use Rattle.delta_forest.specs.Settling.{forest_of};

use crate::candidates::find_candidates;
use crate::index::ForestState;
use crate::settling::settle_all;
use dfa_table::Dfa;
use edge_store::{EdgeStore, Raised};
use rpq_base::{Memory, Workers};
use run_context::{Context, Gate};
use source_tree::{Change, ProductGraph};
use std::thread::Threads;
use tree_delete::removal_elsewhere_keeps_optimal;
use tree_insert::raise_elsewhere_keeps_optimal;

/// Whether the value of the edge is another one now.
fn has_risen(raised: Raised) -> bool
    ensures { result ≡ false → raised.before ≡ Some raised.after }
{
    match raised.before {
        Some(before) => before != raised.after,
        None => true,
    }
}

/// The store takes the change. Answers whether the store may have changed: it hasn't where a raise
/// raised nothing, or where the removed edge wasn't there.
fn change_store(store: &mut EdgeStore, change: Change) -> Result<bool, Memory>
    requires { RaisesSmall change }
    ensures takes { OnOk result (TakesChange change store.old store.new) }
    ensures same { IfOk result (λ changed. changed ≡ false → HasSameValues store.old store.new) }
{
    match change {
        Change::Raise { edge, value } => {
            let raised = store.raise(edge, value)?;
            Ok(has_risen(raised))
        }
        Change::Remove(edge) => Ok(store.remove(edge).is_some()),
        Change::Expire(now) => {
            store.expire(now);
            Ok(true)
        }
    }
}

/// The number of workers that take a change with so many candidates: one, and a further one for
/// each [`trees_per_worker`](Gate::trees_per_worker) of them, while there are any.
fn workers_for<G: Gate>(gate: &G, candidates: usize, workers: Workers) -> Workers
    ensures { result ≤ workers }
{
    Workers::with_further(candidates / gate.trees_per_worker().max(1), workers)
}

/// The store takes the change, and then the trees that it may touch, by at most so many workers. A
/// change that leaves the store as it was ends there. The only error is [`Memory`], after which the
/// state is of no use.
pub(crate) fn advance<R: Threads + Sync, G: Gate>(
    context: &Context<'_, R, G>,
    dfa: &Dfa,
    finals: &[u32],
    state: &mut ForestState,
    change: Change,
    workers: Workers,
) -> Result<(), Memory>
    requires finals { AreFinals dfa.now finals.now }
    requires calls { state.old.calls < 2 ^ 60 }
    requires small { RaisesSmall change }
    requires kept { IsKept dfa.now state.old.store state.old.calls state.old.index }
    ensures kept { OnOk result
        (IsKept dfa.now state.new.store state.new.calls state.new.index) }
    ensures applies { (broken : Bool) → OnOk result (Applies change
        (forest_of dfa.now broken state.old) (forest_of dfa.now false state.new)) }
{
    raise_elsewhere_keeps_optimal();
    removal_elsewhere_keeps_optimal();
    state.found.touched.clear();
    state.found.log.clear();
    if !change_store(&mut state.store, change)? {
        state.calls += 1;
        return Ok(());
    }
    find_candidates(
        context.alloc,
        &mut state.index,
        dfa,
        change,
        &mut state.roots,
    )?;
    let product = ProductGraph {
        store: &state.store,
        dfa,
        finals,
        holders: &state.index.holders,
    };
    let roots = &state.roots;
    let workers = workers_for(context.gate, roots.len(), workers);
    state
        .index
        .sources
        .change_each(context, workers, roots, &product, change)?;
    settle_all(&mut state.index, &mut state.found, roots, change)?;
    state.calls += 1;
    Ok(())
}
