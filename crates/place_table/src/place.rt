//! One place, and the roots that reach it.

ghost use Rattle.std.specs.Prelude.{◌≡◌, ◌<◌, ℕ, [], nat_eq, cond, length, slice_get, None, Some};
ghost use Rattle.std.specs.Prelude.{Ok, OnErr};
ghost use Rattle.std.specs.List.{IsDistinct};
ghost use Rattle.std.specs.Map.{keys_of, lookup};
ghost use Rattle.delta_tree.specs.declared.node.Shift.{Shift as ShiftMade};
ghost use Rattle.place_table.specs.Raises.{HasEnough, RaisesHere};

use crate::entries::{look_up, take_out};
use delta_tree::{NodeId, Shift};
use rpq_base::Memory;
use small_map::SmallMap;
use std::alloc::Global;
use std::marker::Model;

/// What is kept of a node: its value, the vertex and the state of its parent, and the label of the
/// edge by which it hangs.
#[derive(Clone, Copy, Debug, PartialEq, Eq)]
pub(crate) struct Kept {
    pub(crate) value: u64,
    pub(crate) from: u32,
    pub(crate) label: u32,
    pub(crate) before: u32,
}

/// A place with its roots.
#[derive(Drop)]
pub(crate) struct Place {
    id: NodeId,
    nodes: SmallMap<u32, Kept>,
}

impl Model for Place {
    ghost use Rattle.place_table.specs.Kept.{Placed};

    ghost Value = { Placed };

    ghost view = { λ place. record { id = place.id; nodes = place.nodes } };
}

impl Place {
    /// A place that no root reaches, which takes no memory of its own.
    pub(crate) fn new(alloc: Global, id: NodeId) -> Place
        ensures id { result.id ≡ id }
        ensures nodes { result.nodes ≡ [] }
    {
        Place {
            id,
            nodes: SmallMap::new(alloc),
        }
    }

    /// Which place it is.
    pub(crate) fn id(&self) -> NodeId
        ensures { result ≡ self.now.id }
    {
        self.id
    }

    /// Makes it another place.
    pub(crate) fn rename(&mut self, id: NodeId)
        ensures id { self.new.id ≡ id }
        ensures nodes { self.new.nodes ≡ self.old.nodes }
    {
        self.id = id;
    }

    /// The number of roots that reach it.
    pub(crate) fn len(&self) -> usize
        ensures count { result ≡ length self.now.nodes }
        ensures once { IsDistinct nat_eq (keys_of self.now.nodes) }
    {
        self.nodes.len()
    }

    /// The root that stands here, and what is kept of its node.
    pub(crate) fn at(&self, k: usize) -> (u32, Kept)
        requires { k < length self.now.nodes }
        ensures { slice_get self.now.nodes k ≡ Some result }
    {
        self.nodes.at(k)
    }

    /// What is kept of the node of this root.
    pub(crate) fn get(&self, root: u32) -> Option<Kept>
        ensures { result ≡ lookup (nat_eq root) self.now.nodes }
    {
        look_up(&self.nodes, root)
    }

    /// Keeps this of the node of this root where that has a lesser value, or where it has none, and
    /// answers the values before and after; none where it has as much already. This is one look-up.
    /// The only error is [`Memory`], after which nothing has changed.
    pub(crate) fn raise(&mut self, root: u32, kept: Kept) -> Result<Option<Shift>, Memory>
        ensures raises { (shift : ShiftMade) → result ≡ Ok (Some shift) →
            RaisesHere self.old self.new root kept shift }
        ensures stays { result ≡ Ok None → (self.new ≡ self.old)
            × HasEnough (lookup (nat_eq root) self.old.nodes) kept.value }
        ensures id { self.new.id ≡ self.old.id }
        ensures unchanged { OnErr result (self.new ≡ self.old) }
    {
        let Some(place) = self.nodes.place_of(&root) else {
            self.nodes.push(root, kept)?;
            return Ok(Some(shift_to(self.id, None, kept.value)));
        };
        let before = self.nodes.at(place).1.value;
        if kept.value <= before {
            return Ok(None);
        }
        self.nodes.set_at(place, kept);
        Ok(Some(shift_to(self.id, Some(before), kept.value)))
    }

    /// Takes the node of this root out, where it has one.
    pub(crate) fn take(&mut self, root: u32)
        ensures taken { (each : ℕ) → lookup (nat_eq each) self.new.nodes
            ≡ cond (nat_eq root each) None (lookup (nat_eq each) self.old.nodes) }
        ensures id { self.new.id ≡ self.old.id }
    {
        take_out(&mut self.nodes, root);
    }
}

/// That a place has this value now, and had that one before, or none.
fn shift_to(id: NodeId, before: Option<u64>, value: u64) -> Shift
    ensures { result ≡ record { id = id; before = before; after = Some value } }
{
    Shift {
        id,
        before,
        after: Some(value),
    }
}
