//! The states with which roots stand at a vertex.

ghost use Rattle.std.specs.Prelude.{◌≡◌, None, Some, OnOk};
ghost use Rattle.end_log.specs.Runs.{Knows};

use place_table::PlaceTable;
use rpq_base::Memory;
use std::alloc::Global;
use std::marker::Model;

/// The states with which some root has a node at a vertex, from the last look at one. So they are
/// asked once for all roots of a vertex that are gone through one after the other.
#[derive(Drop)]
pub(crate) struct StatesAt {
    vertex: Option<u32>,
    states: Vec<u32>,
}

impl Model for StatesAt {
    ghost use Rattle.end_log.specs.Runs.{StatesValue};

    ghost Value = { StatesValue };

    ghost view = { λ seen. record { vertex = seen.vertex; states = seen.states.items } };
}

impl StatesAt {
    /// Those of no vertex, which take no memory.
    pub(crate) fn new(alloc: Global) -> StatesAt {
        StatesAt {
            vertex: None,
            states: Vec::new(alloc),
        }
    }

    /// From here on no vertex has been looked at.
    pub(crate) fn forget(&mut self)
        ensures { self.new.vertex ≡ None }
    {
        self.vertex = None;
    }

    /// The states.
    pub(crate) fn states(&self) -> &[u32]
        ensures { result.now ≡ self.now.states }
    {
        &self.states
    }

    /// Looks at the vertex, if it isn't the one that was looked at last.
    pub(crate) fn look_at(&mut self, table: &PlaceTable, vertex: u32) -> Result<(), Memory>
        requires { Knows table.now self.old }
        ensures knows { OnOk result (Knows table.now self.new) }
        ensures vertex { OnOk result (self.new.vertex ≡ Some vertex) }
    {
        if self.vertex == Some(vertex) {
            return Ok(());
        }
        table.states_at(vertex, &mut self.states)?;
        self.vertex = Some(vertex);
        Ok(())
    }
}
