//! The calls: from a list of tries, and after the raise of an edge.

ghost use Rattle.std.specs.Prelude.{◌≡◌, ℕ, All, Contains, IfOk, OnOk, Some};
ghost use Rattle.edge_store.specs.Edges.{value_of};
ghost use Rattle.dfa_table.specs.DfaValue.{step_of};
ghost use Rattle.tree_insert.specs.Trees.{CoversStates, HasAll, HasBest, HasOwnWays, IsOptimal};
ghost use Rattle.tree_insert.specs.Trees.{IsValid, WasOptimal};
ghost use Rattle.tree_insert.specs.Calls.{Relaxes, ReportsRises};

use crate::offers::{offer_edge, offer_tries};
use crate::search::Search;
use crate::settling::settle;
use delta_tree::{PathTree, Pending, Try};
use dfa_table::Dfa;
use edge_store::{EdgeId, EdgeStore, Steps};
use rpq_base::Memory;
use std::alloc::Global;
use std::sync::ledger::Ledger;

impl Search {
    /// Makes a tree optimal from a list that has, for each try that could raise its target, one
    /// that gives this target as much. The only error is [`Memory`], after which the paths of the
    /// tree are paths of the store, but not all are the best.
    pub fn relax<T: PathTree, L: Ledger>(
        &mut self,
        tree: &mut T,
        store: &EdgeStore,
        dfa: &Dfa,
        tries: &[Try],
        steps: &mut Steps<L>,
    ) -> Result<(), Memory>
        requires paths { HasOwnWays (value_of store.now) (step_of dfa.now) (T.tree tree.old) }
        requires valid { All (IsValid (value_of store.now) (step_of dfa.now) (T.tree tree.old))
            tries.now }
        requires best { HasBest (value_of store.now) (step_of dfa.now) (T.tree tree.old) tries.now }
        ensures optimal { OnOk result
            (IsOptimal (value_of store.now) (step_of dfa.now) (T.tree tree.new)) }
        ensures relaxes { Relaxes store.now dfa.now (T.tree tree.old) (T.tree tree.new) steps.old
            steps.new }
        ensures rises { OnOk result
            (ReportsRises (T.tree tree.old) (T.tree tree.new) self.new.shifts) }
        ensures beside { T.beside tree.new ≡ T.beside tree.old }
    {
        self.clear();
        offer_tries(self, tree, store, dfa, tries)?;
        settle(self, tree, store, dfa, steps)
    }

    /// Makes a tree optimal that was so before the edge was raised. The states are those with which
    /// a node of the tree may stand at the vertex that the edge leaves: each costs a look-up.
    /// Errors are as in [`Search::relax`].
    pub fn raise<T: PathTree, L: Ledger>(
        &mut self,
        tree: &mut T,
        store: &EdgeStore,
        dfa: &Dfa,
        edge: EdgeId,
        states: &[u32],
        steps: &mut Steps<L>,
    ) -> Result<(), Memory>
        requires before { WasOptimal (value_of store.now) (step_of dfa.now) (T.tree tree.old) edge }
        requires covers { CoversStates (T.tree tree.old) edge.from states.now }
        ensures optimal { OnOk result
            (IsOptimal (value_of store.now) (step_of dfa.now) (T.tree tree.new)) }
        ensures relaxes { Relaxes store.now dfa.now (T.tree tree.old) (T.tree tree.new) steps.old
            steps.new }
        ensures rises { OnOk result
            (ReportsRises (T.tree tree.old) (T.tree tree.new) self.new.shifts) }
        ensures beside { T.beside tree.new ≡ T.beside tree.old }
    {
        self.clear();
        offer_edge(self, tree, store, dfa, edge, states)?;
        settle(self, tree, store, dfa, steps)
    }
}

/// Makes a tree optimal from all tries that could raise their target, as [`Search::relax`] does,
/// for a caller that keeps no room of a search.
///
/// This is the search for widest paths, the greatest value first.
pub fn relax<T: PathTree, L: Ledger>(
    alloc: Global,
    tree: &mut T,
    store: &EdgeStore,
    dfa: &Dfa,
    pending: Pending,
    steps: &mut Steps<L>,
) -> Result<(), Memory>
    requires paths { HasOwnWays (value_of store.now) (step_of dfa.now) (T.tree tree.old) }
    requires valid { All (IsValid (value_of store.now) (step_of dfa.now) (T.tree tree.old))
        pending.tries.items }
    requires all { HasAll (value_of store.now) (step_of dfa.now) (T.tree tree.old)
        pending.tries.items }
    ensures optimal { OnOk result
        (IsOptimal (value_of store.now) (step_of dfa.now) (T.tree tree.new)) }
    ensures relaxes { Relaxes store.now dfa.now (T.tree tree.old) (T.tree tree.new) steps.old
        steps.new }
    ensures beside { T.beside tree.new ≡ T.beside tree.old }
{
    Search::new(alloc).relax(tree, store, dfa, &pending.tries, steps)
}

/// The states of the automaton in their order, and so all to which a step leads.
fn all_states(alloc: Global, dfa: &Dfa) -> Result<Vec<u32>, Memory>
    ensures { IfOk result (λ states. (before label state : ℕ) →
        step_of dfa.now before label ≡ Some state → Contains states.items state) }
{
    let mut states = Vec::new(alloc);
    for state in 0..dfa.states() {
        states.push(state)?;
    }
    Ok(states)
}

/// Makes a tree optimal that was so before the edge was raised, as [`Search::raise`] does, for a
/// caller that keeps no room of a search and no list of states: it tries all that the automaton
/// has.
pub fn tree_raise<T: PathTree, L: Ledger>(
    alloc: Global,
    tree: &mut T,
    store: &EdgeStore,
    dfa: &Dfa,
    edge: EdgeId,
    steps: &mut Steps<L>,
) -> Result<(), Memory>
    requires before { WasOptimal (value_of store.now) (step_of dfa.now) (T.tree tree.old) edge }
    ensures optimal { OnOk result
        (IsOptimal (value_of store.now) (step_of dfa.now) (T.tree tree.new)) }
    ensures relaxes { Relaxes store.now dfa.now (T.tree tree.old) (T.tree tree.new) steps.old
        steps.new }
    ensures beside { T.beside tree.new ≡ T.beside tree.old }
{
    let states = all_states(alloc, dfa)?;
    Search::new(alloc).raise(tree, store, dfa, edge, &states, steps)
}
