//! For each node of a graph, the nodes that have a step to it.

ghost use Rattle.std.specs.Prelude.{◌≡◌, ◌<◌, ℕ, ◌⊎◌, ◌↔◌, [], length, Contains, IfOk, OnOk};
ghost use Rattle.state_pairs.specs.Goals.{StaysWithin};
ghost use Rattle.state_pairs.specs.Sources.{AddsSource, AddsSteps, AreEmpty, AreSources};

use crate::goals::Graph;
use rpq_base::Memory;
use std::alloc::Global;
use std::marker::Model;

/// The nodes that have a step to one node, each once. Contracts see them as their list.
#[derive(Drop)]
pub(crate) struct Sources {
    nodes: Vec<u32>,
}

impl Model for Sources {
    ghost use Rattle.std.specs.Prelude.{List, ℕ};

    ghost Value = { List ℕ };

    ghost view = { λ sources. sources.nodes.items };
}

impl Sources {
    /// No nodes. Takes no memory.
    fn new(alloc: Global) -> Sources
        ensures { result ≡ [] }
    {
        Sources {
            nodes: Vec::new(alloc),
        }
    }

    /// Adds the node, unless it is the one that was added last.
    fn add(&mut self, node: u32) -> Result<(), Memory>
        ensures { OnOk result ((each : ℕ) →
            Contains self.new each ↔ (Contains self.old each ⊎ (each ≡ node))) }
    {
        if self.nodes.last() != Some(&node) {
            self.nodes.push(node)?;
        }
        Ok(())
    }

    /// The nodes.
    pub(crate) fn nodes(&self) -> &[u32]
        ensures { result.now ≡ self.now }
    {
        &self.nodes
    }
}

/// Adds the node to those with a step to the target.
fn add_source(lists: &mut [Sources], target: u32, node: u32) -> Result<(), Memory>
    requires { target < length lists.old }
    ensures { OnOk result (AddsSource target node lists.old lists.new) }
{
    lists[target as usize].add(node)
}

/// Adds the node to those with a step to each node that a label leads to from it. Where several
/// labels lead to one node, it is added once.
fn add_steps<G: Graph>(graph: &G, node: u32, lists: &mut [Sources]) -> Result<(), Memory>
    requires node { node < (G.graph graph.now).node_count }
    requires lists { length lists.old ≡ (G.graph graph.now).node_count }
    requires within { StaysWithin (G.graph graph.now) }
    ensures { OnOk result (AddsSteps (G.graph graph.now) node
        (G.graph graph.now).label_count lists.old lists.new) }
{
    for label in 0..graph.label_count() {
        if let Some(next) = graph.step(node, label) {
            add_source(lists, next, node)?;
        }
    }
    Ok(())
}

/// This many lists without nodes.
fn empty_lists(alloc: Global, count: u32) -> Result<Vec<Sources>, Memory>
    ensures { IfOk result (λ lists. AreEmpty count lists.items) }
{
    let mut lists = Vec::with_capacity(alloc, count as usize)?;
    for _ in 0..count {
        lists.push(Sources::new(alloc))?;
    }
    Ok(lists)
}

/// For each node the nodes that have a step to it. It goes once through the nodes and their
/// labels. The only error is [`Memory`].
pub(crate) fn find_sources<G: Graph>(alloc: Global, graph: &G) -> Result<Vec<Sources>, Memory>
    requires { StaysWithin (G.graph graph.now) }
    ensures { IfOk result (λ lists.
        AreSources (G.graph graph.now) (G.graph graph.now).node_count lists.items) }
{
    let count = graph.node_count();
    let mut lists = empty_lists(alloc, count)?;
    for node in 0..count {
        add_steps(graph, node, &mut lists)?;
    }
    Ok(lists)
}
