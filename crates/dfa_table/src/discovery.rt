//! The walk that numbers the nodes of a graph in the order in which it discovers them.

ghost use Rattle.std.specs.Prelude.{◌≡◌, ◌≢◌, ℕ, ◌+◌, ◌<◌, ◌≤◌, ◌∷◌, ◌++◌, ◌⊎◌, [], length, map, max, Contains};
ghost use Rattle.std.specs.Prelude.{Some, IfOk, IfSome, IfNone, OnOk};
ghost use Rattle.dfa_table.specs.Order.{IsInOrder, greatest_of};
ghost use Rattle.dfa_table.specs.Discovery.{GraphValue, IsDeterminate, IsReached, node_at, IsNumberOf, IsStep, IsRow};
ghost use Rattle.dfa_table.specs.Discovery.{AreNumbered, Grows, IsFull, AreRows, HasTooMany};
ghost use Rattle.dfa_table.specs.FaultTexts.{discovery_fault_text};
ghost use Rattle.dfa_table.specs.declared.discovery.DiscoveryFault.{DiscoveryFault};

use rpq_base::Memory;
use std::alloc::{AllocError, AllocFailed, Global};
use std::error::Error;
use std::fmt;

/// A graph whose nodes a walk numbers. A node is any number; it opens to a front, and from a front
/// each label, by its number from 0, leads to a node or to none.
pub trait Walk {
    /// The graph, as contracts see it.
    ghost graph: { Self → GraphValue };

    /// What the calls rest on.
    ghost can_step: { Self → Type 0 };

    /// The number of labels.
    fn label_count(&self) -> u32
        requires { can_step self.now }
        ensures { result ≡ (graph self.now).label_count };

    /// The front to which the node opens.
    fn open(&self, node: u64) -> u64
        requires { can_step self.now }
        ensures { (graph self.now).opens node result };

    /// The node to which the label of this number leads from the front, or none.
    fn step(&self, front: u64, label: u32) -> Option<u64>
        requires valid { can_step self.now }
        requires label { label < (graph self.now).label_count }
        ensures { (graph self.now).leads front label result };
}

/// Why a walk ends before its end.
#[derive(Clone, Copy, Debug, PartialEq, Eq)]
pub enum DiscoveryFault {
    /// Steps lead to more nodes than the limit.
    Full,
    /// Memory ran out.
    Memory(Memory),
}

impl From<AllocError> for DiscoveryFault {
    ghost from_gives = { λ _ fault. fault ≢ DiscoveryFault.Full };

    fn from(refused: AllocError) -> Self {
        Self::Memory(Memory::from(refused))
    }
}

impl<T: Drop> From<AllocFailed<T>> for DiscoveryFault {
    ghost from_gives = { λ _ fault. fault ≢ DiscoveryFault.Full };

    fn from(refused: AllocFailed<T>) -> Self {
        Self::Memory(Memory::from(refused))
    }
}

impl fmt::Display for DiscoveryFault {
    ghost output = { λ fault. Some (discovery_fault_text fault) };

    fn fmt<W: fmt::Write>(&self, f: &mut fmt::Formatter<W>) -> fmt::Result {
        match self {
            Self::Full => f.write_str("too many nodes"),
            Self::Memory(_) => f.write_str("out of memory"),
        }
    }
}

impl Error for DiscoveryFault {}

/// The nodes in the order of their discovery, and the rows of the start and of these nodes: for
/// each label the number of the node to which it leads, which is its place and one.
#[derive(Drop)]
pub struct Discovery {
    pub nodes: Vec<u64>,
    pub rows: Vec<Vec<Option<u32>>>,
}

/// The place of the node.
fn find(nodes: &[u64], node: u64) -> Option<usize>
    ensures found { IfSome result (λ place.
        (place < length nodes.now) × (node_at nodes.now place ≡ node)) }
    ensures none { IfNone result (Contains nodes.now node → ⊥) }
{
    nodes.iter().position(|each| *each == node)
}

/// The number of the node, which comes at the end of the list where it isn't there.
fn number(nodes: &mut Vec<u64>, limit: u32, node: u64) -> Result<u32, DiscoveryFault>
    requires { length nodes.old.items ≤ limit }
    ensures nodes { (nodes.new.items ≡ nodes.old.items)
        ⊎ ((nodes.new.items ≡ nodes.old.items ++ node ∷ [])
        × (length nodes.old.items < limit) × (Contains nodes.old.items node → ⊥)) }
    ensures number { IfOk result (IsNumberOf nodes.new.items node) }
    ensures order { IfOk result (λ number.
        (number ≤ length nodes.old.items + 1)
        × (max (length nodes.old.items) number ≡ length nodes.new.items)) }
    ensures full { result ≡ Err DiscoveryFault.Full →
        (length nodes.new.items ≡ limit) × (Contains nodes.new.items node → ⊥) }
{
    if let Some(place) = find(nodes, node) {
        return Ok(place as u32 + 1);
    }
    if nodes.len() == limit as usize {
        return Err(DiscoveryFault::Full);
    }
    nodes.push(node)?;
    Ok(nodes.len() as u32)
}

/// The step that the label makes from the front.
fn step<G: Walk>(
    graph: &G,
    nodes: &mut Vec<u64>,
    limit: u32,
    front: u64,
    label: u32,
) -> Result<Option<u32>, DiscoveryFault>
    requires valid { G.can_step graph.now }
    requires label { label < (G.graph graph.now).label_count }
    requires nodes { AreNumbered limit nodes.old.items }
    ensures nodes { Grows (G.graph graph.now) limit front nodes.old.items nodes.new.items }
    ensures step { IfOk result (IsStep (G.graph graph.now) nodes.new.items front label) }
    ensures order { IfOk result (λ step. IsInOrder (length nodes.old.items) (step ∷ [])) }
    ensures greatest { IfOk result (λ step.
        greatest_of (length nodes.old.items) (step ∷ []) ≡ length nodes.new.items) }
    ensures full { result ≡ Err DiscoveryFault.Full →
        IsFull (G.graph graph.now) limit front nodes.new.items }
{
    let Some(node) = graph.step(front, label) else {
        return Ok(None);
    };
    Ok(Some(number(nodes, limit, node)?))
}

/// The row of the front: for each label its step.
fn row<G: Walk>(
    alloc: Global,
    graph: &G,
    nodes: &mut Vec<u64>,
    limit: u32,
    front: u64,
) -> Result<Vec<Option<u32>>, DiscoveryFault>
    requires valid { G.can_step graph.now }
    requires nodes { AreNumbered limit nodes.old.items }
    ensures nodes { Grows (G.graph graph.now) limit front nodes.old.items nodes.new.items }
    ensures row { IfOk result (λ row.
        IsRow (G.graph graph.now) nodes.new.items front (G.graph graph.now).label_count
        row.items) }
    ensures order { IfOk result (λ row. IsInOrder (length nodes.old.items) row.items) }
    ensures greatest { IfOk result (λ row.
        greatest_of (length nodes.old.items) row.items ≡ length nodes.new.items) }
    ensures full { result ≡ Err DiscoveryFault.Full →
        IsFull (G.graph graph.now) limit front nodes.new.items }
{
    let mut row = Vec::new(alloc);
    for label in 0..graph.label_count() {
        row.push(step(graph, nodes, limit, front, label)?)?;
    }
    Ok(row)
}

/// The nodes to which steps lead from the first front, in the order of their discovery: node by
/// node, and from each label by label.
///
/// The start is no node: its row is that of the first front. Each node to which a step leads is
/// looked up among those that are there, one after another.
pub fn discover<G: Walk>(
    alloc: Global,
    graph: &G,
    first: u64,
    limit: u32,
) -> Result<Discovery, DiscoveryFault>
    requires { G.can_step graph.now }
    ensures rows { IfOk result (λ found.
        AreRows (G.graph graph.now) limit first found.nodes.items
        (map (λ row. row.items) found.rows.items) (length found.nodes.items)) }
    ensures all { IfOk result (λ found. IsDeterminate (G.graph graph.now) → (node : ℕ) →
        IsReached (G.graph graph.now) first node → Contains found.nodes.items node) }
    ensures full { result ≡ Err DiscoveryFault.Full →
        HasTooMany (G.graph graph.now) limit first }
    ensures few { OnOk result (IsDeterminate (G.graph graph.now) →
        HasTooMany (G.graph graph.now) limit first → ⊥) }
{
    let mut nodes = Vec::new(alloc);
    let mut rows = Vec::new(alloc);
    rows.push(row(alloc, graph, &mut nodes, limit, first)?)?;
    let mut done = 0;
    'nodes: while done < nodes.len() {
        let front = graph.open(nodes[done]);
        rows.push(row(alloc, graph, &mut nodes, limit, front)?)?;
        done += 1;
    }
    Ok(Discovery { nodes, rows })
}
