//! A tree by hand.

ghost use Rattle.std.specs.Prelude.{◌≡◌, ◌+◌, ◌<◌, OnOk, Some};
ghost use Rattle.delta_tree.specs.Nodes.{Joins, node_id, value_of};
ghost use Rattle.delta_tree.specs.Changes.{Raises};

use delta_tree::{NodeId, Tree, Try};
use edge_store::EdgeId;
use rpq_base::Memory;
use std::alloc::Global;
use std::test::Fail;

/// The node of a vertex with the state 1.
fn node(vertex: u32) -> NodeId
    ensures { result ≡ node_id vertex 1 }
{
    NodeId { vertex, state: 1 }
}

/// An edge with the label 0.
fn edge(from: u32, to: u32) -> EdgeId
    ensures from { result.from ≡ from }
    ensures to { result.to ≡ to }
{
    EdgeId { from, label: 0, to }
}

/// A step to a node by an edge with the label 0.
fn step(from: NodeId, to: NodeId) -> Try
    ensures from { result.from ≡ from }
    ensures to { result.to ≡ to }
    ensures joins { Joins from result.edge to }
{
    Try {
        from,
        edge: edge(from.vertex, to.vertex),
        to,
    }
}

/// Hangs the vertex 2 below the root, the vertex 1, and the vertex 3 below it, with this value.
fn put_both(tree: &mut Tree, value: u64) -> Result<(), Memory>
    requires root { tree.old.root ≡ 1 }
    requires first { Raises tree.old (node_id 2 1) value }
    requires second { Raises tree.old (node_id 3 1) value }
    requires puts { tree.old.puts < 100 }
    ensures first { OnOk result (value_of tree.new (node_id 2 1) ≡ Some value) }
    ensures second { OnOk result (value_of tree.new (node_id 3 1) ≡ Some value) }
    ensures puts { OnOk result (tree.new.puts ≡ tree.old.puts + 2) }
    ensures root { tree.new.root ≡ tree.old.root }
{
    let root = NodeId {
        vertex: 1,
        state: 0,
    };
    tree.put(step(root, node(2)), value)?;
    tree.put(step(node(2), node(3)), value)?;
    Ok(())
}

/// Whether a chain of two nodes grows, leads to its end, is raised, is cut there, and expires.
fn grows_and_goes(alloc: Global) -> Result<bool, Memory> {
    let mut tree = Tree::new(alloc, 1)?;
    put_both(&mut tree, 15)?;
    let grown = tree.value_of(2, 1) == Some(15) && tree.value_of(3, 1) == Some(15);
    let led = match tree.path_to(3, 1)? {
        Some(edges) => edges.as_slice() == [edge(1, 2), edge(2, 3)].as_slice(),
        None => false,
    };
    put_both(&mut tree, 20)?;
    let cut = tree.cut_below(edge(2, 3))?;
    let alone = cut.as_slice() == [node(3)].as_slice() && tree.value_of(3, 1).is_none();
    tree.expire(19);
    let stays = tree.len() == 1 && tree.node_at(0) == node(2) && tree.root() == 1;
    tree.expire(20);
    Ok(grown && led && alone && stays && tree.len() == 0)
}

#[test]
fn a_chain_grows_and_goes(rt: HostRuntime) -> Result<(), Fail> {
    assert!(rt; grows_and_goes(rt.alloc())?);
    Ok(())
}
