//! A path that shows an answer: the one that an index has for it, by names.

ghost use Rattle.std.specs.Prelude.{◌≡◌, ◌<◌, ℕ, List, length, option_map, All, None, false};
ghost use Rattle.std.specs.Prelude.{IfOk, IfNone, IfSome, OnOk};
ghost use Rattle.rpq_base.specs.declared.data.Entry.{Entry as EntryTaken};
ghost use Rattle.delta_forest.specs.Forest.{IsEnd};
ghost use Rattle.index_laws.specs.LawsOfPaths.{HaveNumbers};
ghost use Rattle.query_index.specs.Answering.{HasHistory};
ghost use Rattle.query_index.specs.Index.{IsIndexFor};
ghost use Rattle.query_index.specs.Paths.{AddsEdge, AreKnown, HaveEdges, IsBestState};
ghost use Rattle.query_index.specs.Paths.{ShowsEnd, ShowsPair, better, final_value};

use crate::answering::mode_of;
use crate::index::QueryIndex;
use crate::vertices::Vertices;
use delta_forest::{Forest, kept_is_best};
use dfa_table::Dfa;
use edge_store::EdgeId;
use end_events::counts;
use index_laws::{index_tells_answers, paths_by_numbers};
use name_table::Names;
use query_file::Compiled;
use rpq_base::{Edge, Memory, Name, TryClone};
use std::alloc::Global;

impl QueryIndex {
    /// A path that shows the pair of these two vertices as an answer of the query, or none where
    /// it is no answer. It may visit a vertex twice, also where the query takes simple paths. The
    /// only error is [`Memory`]. This costs a look-up for each state of the automaton and for each
    /// edge of the path.
    pub fn best_path(
        &self,
        alloc: Global,
        query: &Compiled,
        names: &Names,
        from: &Name,
        to: &Name,
    ) -> Result<Option<Vec<Edge>>, Memory>
        requires { HasHistory query.now names.now self.now }
        ensures { IfOk result (λ found. (history : List EntryTaken) (fed : ℕ) →
            IsIndexFor query.now history fed names.now self.now →
            ShowsPair query.now.def history (record { from = from.now; to = to.now }) found) }
    {
        let mode = mode_of(query);
        // these laws are called for their clauses
        kept_is_best();
        index_tells_answers();
        paths_by_numbers();
        let Some(ends) = Vertices::find(names, from, to) else {
            return Ok(None);
        };
        if !counts(mode, ends.from, ends.to) {
            return Ok(None);
        }
        path_between(alloc, self.trees(), names, ends.from, ends.to)
    }
}

/// A best path of the forest that leads to a final state with the end of the vertex.
fn path_between(
    alloc: Global,
    forest: &Forest,
    names: &Names,
    root: u32,
    vertex: u32,
) -> Result<Option<Vec<Edge>>, Memory>
    requires unbroken { forest.now.broken ≡ false }
    requires named { HaveEdges names.now forest.now }
    ensures { IfOk result (ShowsEnd names.now forest.now root vertex) }
{
    let Some(state) = best_state(forest, root, vertex) else {
        return Ok(None);
    };
    match forest.path(root, vertex, state)? {
        Some(ids) => Ok(Some(edges_of(alloc, names, forest.dfa(), &ids)?)),
        None => Ok(None),
    }
}

/// A final state for which the forest keeps the end of the vertex.
fn best_state(forest: &Forest, root: u32, vertex: u32) -> Option<u32>
    ensures none { IfNone result (IsEnd forest.now root vertex None) }
    ensures some { IfSome result (IsBestState forest.now root vertex) }
{
    let mut best = None;
    for state in 0..forest.dfa().states() {
        best = better(best, state, final_value(forest, root, vertex, state));
    }
    state_of(best)
}

/// The state, without its value.
fn state_of(best: Option<(u32, u64)>) -> Option<u32>
    ensures { result ≡ option_map (λ (each : ℕ × ℕ). each.0) best }
{
    match best {
        Some((state, _)) => Some(state),
        None => None,
    }
}

/// What is kept for a final state, and none for another.
fn final_value(forest: &Forest, root: u32, vertex: u32, state: u32) -> Option<u64>
    requires { state < length forest.now.dfa.rows }
    ensures { result ≡ final_value forest.now root vertex state }
{
    if forest.dfa().is_final(state) {
        forest.kept(root, vertex, state)
    } else {
        None
    }
}

/// Of the best state so far with its value, and another with the one that it may have, the better.
fn better(best: Option<(u32, u64)>, state: u32, value: Option<u64>) -> Option<(u32, u64)>
    ensures { result ≡ better best state value }
{
    match value {
        None => best,
        Some(value) => match best {
            None => Some((state, value)),
            Some((other, most)) => {
                if most < value {
                    Some((state, value))
                } else {
                    Some((other, most))
                }
            }
        },
    }
}

/// The edges that have these numbers.
fn edges_of(alloc: Global, names: &Names, dfa: &Dfa, ids: &[EdgeId]) -> Result<Vec<Edge>, Memory>
    requires { All (AreKnown names.now dfa.now) ids.now }
    ensures { IfOk result (λ path. HaveNumbers names.now dfa.now path.items ids.now) }
{
    let mut path = Vec::with_capacity(alloc, ids.len())?;
    for id in ids {
        add_edge(&mut path, names, dfa, id)?;
    }
    Ok(path)
}

/// Puts the edge that has these numbers at the end of the path.
fn add_edge(path: &mut Vec<Edge>, names: &Names, dfa: &Dfa, id: &EdgeId) -> Result<(), Memory>
    requires { AreKnown names.now dfa.now id.now }
    ensures { OnOk result (AddsEdge names.now dfa.now id.now path.old.items path.new.items) }
{
    path.push(Edge {
        from: names.name_of(id.from).copy()?,
        label: dfa.labels()[id.label as usize].copy()?,
        to: names.name_of(id.to).copy()?,
    })?;
    Ok(())
}
