//! Where to look for the place of a vertex with a state.

ghost use Rattle.std.specs.Prelude.{◌≡◌, ◌<◌, ℕ, [], cond, length, slice_get, None, Some, OnOk};
ghost use Rattle.std.specs.Prelude.{OnErr};
ghost use Rattle.std.specs.Map.{keys_of};
ghost use Rattle.delta_tree.specs.declared.node.NodeId.{NodeId as NodeIdMade};
ghost use Rattle.delta_tree.specs.Nodes.{same_node};
ghost use Rattle.place_table.specs.Kept.{hint_of, row_at};

use crate::hint_row::HintRow;
use delta_tree::NodeId;
use rpq_base::Memory;
use std::alloc::Global;
use std::marker::Model;

/// For each vertex its states, each with the number of a place. What it says is looked at where it
/// is used, so a number may be that of another place, or of none.
#[derive(Drop)]
pub(crate) struct Hints {
    alloc: Global,
    rows: Vec<HintRow>,
}

impl Model for Hints {
    ghost use Rattle.std.specs.Prelude.{ℕ, List};

    ghost Value = { List (List (ℕ × ℕ)) };

    ghost view = { λ hints. hints.rows.items };
}

impl Hints {
    /// No place is known.
    pub(crate) fn new(alloc: Global) -> Hints
        ensures { result ≡ [] }
    {
        Hints {
            alloc,
            rows: Vec::new(alloc),
        }
    }

    /// The number that is noted for the place.
    pub(crate) fn get(&self, id: NodeId) -> Option<u32>
        ensures { result ≡ hint_of self.now id }
    {
        let vertex = id.vertex as usize;
        if vertex >= self.rows.len() {
            return None;
        }
        self.rows[vertex].get(id.state)
    }

    /// The number of states that are noted for the vertex.
    pub(crate) fn len(&self, vertex: u32) -> usize
        ensures { result ≡ length (row_at self.now vertex) }
    {
        let vertex = vertex as usize;
        if vertex >= self.rows.len() {
            return 0;
        }
        self.rows[vertex].len()
    }

    /// The state that is noted there for the vertex.
    pub(crate) fn state_at(&self, vertex: u32, k: usize) -> u32
        requires { k < length (row_at self.now vertex) }
        ensures { slice_get (keys_of (row_at self.now vertex)) k ≡ Some result }
    {
        self.rows[vertex as usize].at(k).0
    }

    /// Notes this number for the place. After an error what is noted is as before.
    pub(crate) fn set(&mut self, id: NodeId, number: u32) -> Result<(), Memory>
        ensures set { OnOk result ((each : NodeIdMade) → hint_of self.new each
            ≡ cond (same_node id each) (Some number) (hint_of self.old each)) }
        ensures same { OnErr result ((each : NodeIdMade) →
            hint_of self.new each ≡ hint_of self.old each) }
    {
        reach(self.alloc, &mut self.rows, id.vertex)?;
        self.rows[id.vertex as usize].set(id.state, number)
    }
}

/// A row for the vertex.
fn reach(alloc: Global, rows: &mut Vec<HintRow>, vertex: u32) -> Result<(), Memory>
    ensures same { (each : ℕ) → row_at rows.new.items each ≡ row_at rows.old.items each }
    ensures reached { OnOk result (vertex < length rows.new.items) }
{
    while rows.len() <= vertex as usize {
        rows.push(HintRow::new(alloc))?;
    }
    Ok(())
}
