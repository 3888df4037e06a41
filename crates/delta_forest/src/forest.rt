//! The forest.

ghost use Rattle.std.specs.Prelude.{◌≡◌, ◌↔◌, ◌^◌, ◌<◌, [], true, false, length, None};
ghost use Rattle.std.specs.Prelude.{IfOk, IfSome, IsTrue, OnErr, OnOk};
ghost use Rattle.edge_store.specs.Edges.{IsEmpty};
ghost use Rattle.delta_forest.specs.Forest.{IsIndexed, kept};
ghost use Rattle.delta_forest.specs.Changes.{Applies, AreReachedFrom, RaisesSmall};
ghost use Rattle.delta_forest.specs.Paths.{IsBestPath};
ghost use Rattle.dfa_table.specs.DfaValue.{is_final};
ghost use Rattle.delta_forest.specs.Candidates.{Adds};
ghost use Rattle.source_tree.specs.Product.{AreFinals};
ghost use Rattle.delta_forest.specs.Settling.{IsNewState};

use crate::advancing::advance;
use crate::index::{Findings, ForestState, Index};
use dfa_table::Dfa;
use edge_store::{EdgeId, EdgeStore};
use rpq_base::{Memory, Workers};
use run_context::{Context, Gate};
use source_index::{Dues, Holders};
use source_table::SourceTable;
use source_tree::{Change, EndChange, Reached};
use std::alloc::Global;
use std::marker::Model;
use std::thread::Threads;

/// A store of edges, and for each source the tree of the best paths.
///
/// Contracts see it as `ForestValue` of `specs/`. Where memory runs out, it is broken, and of no
/// use until it is cleared.
pub struct Forest {
    alloc: Global,
    dfa: Dfa,
    /// The final states of the automaton but the state 0, with which no node stands.
    finals: Vec<u32>,
    state: ForestState,
    /// Whether a change was begun and not taken to its end.
    broken: bool,
}

impl Drop for Forest {
    fn drop(self) {
        let Forest {
            alloc: _alloc,
            dfa: _dfa,
            finals: _finals,
            state: _state,
            broken: _broken,
        } = self;
    }
}

impl Model for Forest {
    ghost use Rattle.delta_forest.specs.Forest.{ForestValue};
    ghost use Rattle.delta_forest.specs.Settling.{IsIntact, forest_of};

    ghost Value = { ForestValue };

    ghost view = { λ forest. forest_of forest.dfa forest.broken forest.state };

    ghost invariant = { λ forest.
        IsIntact forest.dfa forest.finals.items forest.broken forest.state };
}

/// Adds the state, where it is final.
fn add_final(dfa: &Dfa, state: u32, finals: &mut Vec<u32>) -> Result<(), Memory>
    requires { state < length dfa.now.rows }
    ensures { OnOk result (Adds finals.old.items finals.new.items
        (λ each. (each ≡ state) × IsTrue (is_final dfa.now each))) }
{
    if dfa.is_final(state) {
        finals.push(state)?;
        return Ok(());
    }
    Ok(())
}

/// The final states of an automaton with which a node can stand: no node stands with the state 0.
fn finals_of(alloc: Global, dfa: &Dfa) -> Result<Vec<u32>, Memory>
    ensures { IfOk result (λ finals. AreFinals dfa.now finals.items) }
{
    let mut finals = Vec::new(alloc);
    for state in 1..dfa.states() {
        add_final(dfa, state, &mut finals)?;
    }
    Ok(finals)
}

/// Nothing was changed yet.
fn new_state(alloc: Global) -> Result<ForestState, Memory>
    ensures { IfOk result IsNewState }
{
    let store = EdgeStore::new(alloc)?;
    let index = Index {
        sources: SourceTable::new(alloc),
        holders: Holders::new(alloc),
        dues: Dues::new(alloc),
    };
    let roots = Vec::new(alloc);
    let found = Findings {
        touched: Vec::new(alloc),
        log: Vec::new(alloc),
    };
    Ok(ForestState {
        store,
        index,
        roots,
        found,
        calls: 0,
    })
}

/// The state as it was when nothing was changed yet.
fn clear_state(state: &mut ForestState)
    ensures { IsNewState state.new }
{
    state.store.clear();
    state.index.sources.clear();
    state.index.holders.clear();
    state.index.dues.clear();
    state.found.touched.clear();
    state.found.log.clear();
    state.calls = 0;
}

impl Forest {
    /// A forest without edges over this automaton. The only error is [`Memory`].
    pub fn new(alloc: Global, dfa: Dfa) -> Result<Forest, Memory>
        ensures dfa { IfOk result (λ forest. forest.dfa ≡ dfa) }
        ensures empty { IfOk result (λ forest. IsEmpty forest.store) }
        ensures bare { IfOk result (λ forest. forest.trees ≡ []) }
        ensures calls { IfOk result (λ forest. forest.calls ≡ 0) }
        ensures unbroken { IfOk result (λ forest. forest.broken ≡ false) }
        ensures touched { IfOk result (λ forest. forest.touched ≡ []) }
        ensures log { IfOk result (λ forest. forest.log ≡ []) }
    {
        let finals = finals_of(alloc, &dfa)?;
        let state = new_state(alloc)?;
        Ok(Forest {
            alloc,
            dfa,
            finals,
            state,
            broken: false,
        })
    }

    /// Takes a change: first the store does, then the trees that it may touch, its candidates. A
    /// raise that raises nothing and a removal of an edge that isn't there end at the store, at the
    /// cost of a look-up.
    ///
    /// One worker goes through the candidates, and a further one for each
    /// [`trees_per_worker`](Gate::trees_per_worker) of them, up to so many workers. The trees are cut into
    /// at most as many chunks of the same size as there are workers; each worker passes the gate
    /// before it begins. Where there is no tree, or the change ends at the store, none does.
    ///
    /// The only error is [`Memory`], after which the forest is broken. It may have taken fewer than
    /// 2^60 changes since it was made or cleared. No raised edge has a vertex that is the greatest
    /// number of 32 bits.
    pub fn apply<R: Threads + Sync, G: Gate>(
        &mut self,
        context: &Context<'_, R, G>,
        change: Change,
        workers: Workers,
    ) -> Result<(), Memory>
        requires unbroken { self.old.broken ≡ false }
        requires calls { self.old.calls < 2 ^ 60 }
        requires small { RaisesSmall change }
        ensures applied { OnOk result (Applies change self.old self.new) }
        ensures dfa { self.new.dfa ≡ self.old.dfa }
        ensures broken { OnErr result (self.new.broken ≡ true) }
    {
        // until the change is taken to its end
        self.broken = true;
        advance(
            context,
            &self.dfa,
            &self.finals,
            &mut self.state,
            change,
            workers,
        )?;
        self.broken = false;
        Ok(())
    }

    /// Whether memory ran out in a change. While it hasn't, all trees are optimal for the store.
    pub fn broken(&self) -> bool
        ensures broken { result ≡ self.now.broken }
        ensures indexed { result ≡ false → IsIndexed self.now }
    {
        self.broken
    }

    /// What is kept for a root, a vertex and a state: the greatest number that all values of some
    /// path from the root to the vertex reach, where the path leads the automaton from its start to
    /// the state. None where there is no such path. This costs two look-ups.
    pub fn kept(&self, x: u32, v: u32, s: u32) -> Option<u64>
        ensures { result ≡ kept self.now x v s }
    {
        match self.state.index.sources.get(x) {
            Some(source) => source.value_of(v, s),
            None => None,
        }
    }

    /// A path for what is kept, from its first edge to its last: it goes on from the root to the
    /// vertex, leads the automaton from its start to the state, and the least of the values of its
    /// edges is what is kept. None where nothing is kept. The only error is [`Memory`]. The parents
    /// of the root's tree give the path, so this costs a look-up for each of its edges.
    pub fn path(&self, x: u32, v: u32, s: u32) -> Result<Option<Vec<EdgeId>>, Memory>
        requires { self.now.broken ≡ false }
        ensures none { IfOk result (λ found. (found ≡ None) ↔ (kept self.now x v s ≡ None)) }
        ensures path { IfOk result (λ found. IfSome found (λ path.
            IsBestPath self.now x v s path.items)) }
    {
        match self.state.index.sources.get(x) {
            Some(source) => source.path_to(v, s),
            None => Ok(None),
        }
    }

    /// The vertices that the root reaches with a final state, in rising order, each with the
    /// greatest value that is kept for it and a final state. This goes through all nodes of the
    /// root's tree. The only error is [`Memory`].
    pub fn reached(&self, x: u32) -> Result<Vec<Reached>, Memory>
        requires { self.now.broken ≡ false }
        ensures { IfOk result (λ reached. AreReachedFrom self.now x reached.items) }
    {
        let Some(source) = self.state.index.sources.get(x) else {
            return Ok(Vec::new(self.alloc));
        };
        source.reached(&self.finals)
    }

    /// The automaton.
    pub fn dfa(&self) -> &Dfa
        ensures { result.now ≡ self.now.dfa }
    {
        &self.dfa
    }

    /// The roots whose trees the last change touched, in rising order.
    pub fn touched(&self) -> &[u32]
        ensures { result.now ≡ self.now.touched }
    {
        &self.state.found.touched
    }

    /// The ends that came or went with the last change, in no order.
    pub fn log(&self) -> &[EndChange]
        ensures { result.now ≡ self.now.log }
    {
        &self.state.found.log
    }

    /// Makes the forest what [`Forest::new`] made it.
    pub fn clear(&mut self)
        ensures dfa { self.new.dfa ≡ self.old.dfa }
        ensures empty { IsEmpty self.new.store }
        ensures bare { self.new.trees ≡ [] }
        ensures calls { self.new.calls ≡ 0 }
        ensures unbroken { self.new.broken ≡ false }
        ensures touched { self.new.touched ≡ [] }
        ensures log { self.new.log ≡ [] }
    {
        clear_state(&mut self.state);
        self.broken = false;
    }
}
