//! One table of the nodes of many trees.

ghost use Rattle.std.specs.Prelude.{◌≡◌, ◌≤◌, ◌⊎◌, ℕ, [], IfOk, OnErr, IsTrue, ◌↔◌, Ok, None};
ghost use Rattle.std.specs.Prelude.{Some, Contains};
ghost use Rattle.delta_tree.specs.declared.node.NodeId.{NodeId};
ghost use Rattle.delta_tree.specs.declared.node.Shift.{Shift as ShiftMade};
ghost use Rattle.delta_tree.specs.Changes.{CanHang, HasAsMuch, Lifts};
ghost use Rattle.delta_tree.specs.Nodes.{IsTree};
ghost use Rattle.delta_tree.specs.Paths.{HangsBy};
ghost use Rattle.place_table.specs.Raises.{ChangesOneTree, HasNumber};
ghost use Rattle.place_table.specs.Table.{node_at, tree_in, value_at};

use crate::marks::Marks;
use crate::noted::raise_node;
use crate::place::Kept;
use crate::places::Places;
use crate::spot::Spot;
use delta_tree::{NodeId, Shift, Try};
use due_queue::DueQueue;
use edge_store::EdgeId;
use ghost_list::GhostList;
use rpq_base::Memory;
use std::alloc::Global;
use std::marker::Model;

/// All trees of a query, of which one is shown: at each place the roots that reach it, each with
/// its node.
#[derive(Drop)]
pub struct PlaceTable {
    pub(crate) alloc: Global,
    pub(crate) root: u32,
    pub(crate) places: Places,
    /// Each put so far, by its root and place. The stamp of a node is the number of puts before
    /// its own, so that no memory bounds it.
    puts: GhostList<Spot>,
    /// Each node with a value that it has or had, for the order in which they leave.
    pub(crate) dues: DueQueue<Spot>,
    marks: Marks,
}

impl Model for PlaceTable {
    ghost use Rattle.std.specs.Prelude.{length};
    ghost use Rattle.place_table.specs.Table.{TableValue};
    ghost use Rattle.place_table.specs.Kept.{seen};
    ghost use Rattle.place_table.specs.Sound.{IsSound};

    ghost Value = { TableValue };

    ghost view = { λ table. record {
      root = table.root;
      places = seen table.puts table.places;
      puts = length table.puts;
      marked = table.marks;
    } };

    ghost invariant = { λ table. IsSound table.puts table.places table.dues.items };
}

impl PlaceTable {
    /// A table without nodes, which takes no memory.
    pub fn new(alloc: Global) -> PlaceTable
        ensures { result ≡ record { root = 0; places = []; puts = 0; marked = [] } }
    {
        PlaceTable {
            alloc,
            root: 0,
            places: Places::new(alloc),
            puts: GhostList::new(),
            dues: DueQueue::new(alloc),
            marks: Marks::new(alloc),
        }
    }

    /// Takes all nodes out, and gives their memory back. Nothing is marked.
    pub fn clear(&mut self)
        ensures root { self.new.root ≡ self.old.root }
        ensures places { self.new.places ≡ [] }
        ensures puts { self.new.puts ≡ self.old.puts }
        ensures marked { self.new.marked ≡ [] }
    {
        self.places = Places::new(self.alloc);
        self.dues = DueQueue::new(self.alloc);
        self.marks = Marks::new(self.alloc);
    }

    /// Each tree is a tree.
    pub fn has_trees(&self)
        ensures { (root : ℕ) → IsTree (tree_in self.now root) }
    {
        let _ = &self.places; // a look at a field opens what the table keeps
    }

    /// Shows the tree of this root.
    pub fn show(&mut self, root: u32)
        ensures root { self.new.root ≡ root }
        ensures places { self.new.places ≡ self.old.places }
        ensures puts { self.new.puts ≡ self.old.puts }
        ensures marked { self.new.marked ≡ self.old.marked }
    {
        self.root = root;
    }

    /// From here on no place is marked.
    pub fn begin_search(&mut self)
        ensures root { self.new.root ≡ self.old.root }
        ensures places { self.new.places ≡ self.old.places }
        ensures puts { self.new.puts ≡ self.old.puts }
        ensures marked { self.new.marked ≡ [] }
    {
        self.marks.begin();
    }

    /// Whether the place is marked.
    pub fn is_marked(&self, id: NodeId) -> bool
        ensures { IsTrue result → Contains self.now.marked id }
    {
        match self.places.hint(id) {
            Some(number) => self.marks.is_marked(number, id),
            None => false,
        }
    }

    /// Marks the place of this number.
    pub(crate) fn mark(&mut self, number: usize, id: NodeId) -> Result<(), Memory>
        ensures marked { (each : NodeId) → Contains self.new.marked each →
            Contains self.old.marked each ⊎ (each ≡ id) }
        ensures root { self.new.root ≡ self.old.root }
        ensures places { self.new.places ≡ self.old.places }
        ensures puts { self.new.puts ≡ self.old.puts }
    {
        self.marks.mark(number, id)
    }

    /// The value of the root's node at the place, or none where it has none there.
    pub fn value_at(&self, root: u32, id: NodeId) -> Option<u64>
        ensures { result ≡ value_at self.now root id }
    {
        match self.places.get(root, id) {
            Some(kept) => Some(kept.value),
            None => None,
        }
    }

    /// Whether the root's node at the place hangs by the edge.
    pub fn hangs_by(&self, root: u32, id: NodeId, edge: EdgeId) -> bool
        ensures { IsTrue result ↔ HangsBy (tree_in self.now root) edge id }
    {
        match self.places.get(root, id) {
            Some(kept) => edge_of(kept, id) == edge,
            None => false,
        }
    }

    /// Takes the step in the tree of the root, where this gives its target a greater value than it
    /// has, and answers its values before and after; none where it has as much already. The only
    /// error is [`Memory`], after which the trees are as before.
    pub fn lift(&mut self, root: u32, step: Try, value: u64) -> Result<Option<Shift>, Memory>
        requires hangs { CanHang (tree_in self.old root) step value }
        ensures lifts { (shift : ShiftMade) → result ≡ Ok (Some shift) →
            Lifts (tree_in self.old root) (tree_in self.new root) step value shift }
        ensures stays { result ≡ Ok None →
            HasAsMuch (tree_in self.old root) (tree_in self.new root) step.to value }
        ensures others { (other : ℕ) → (root ≡ other → ⊥) → (id : NodeId) →
            node_at self.new other id ≡ node_at self.old other id }
        ensures unchanged { OnErr result
            ((each : ℕ) → tree_in self.new each ≡ tree_in self.old each) }
        ensures shown { self.new.root ≡ self.old.root }
        ensures counted { self.old.puts ≤ self.new.puts }
        ensures marked { self.new.marked ≡ self.old.marked }
    {
        let number = self.make_place(step.to)?;
        self.lift_at(number, root, step, value)
    }

    /// The number of the place, which is made where it isn't one yet. This changes no tree.
    pub(crate) fn make_place(&mut self, id: NodeId) -> Result<usize, Memory>
        ensures number { IfOk result (HasNumber self.new id) }
        ensures trees { (each : ℕ) → tree_in self.new each ≡ tree_in self.old each }
        ensures shown { self.new.root ≡ self.old.root }
        ensures puts { self.new.puts ≡ self.old.puts }
        ensures marked { self.new.marked ≡ self.old.marked }
    {
        self.places.make(id)
    }

    /// [`PlaceTable::lift`], where this is the number of the place of the step's target.
    pub(crate) fn lift_at(
        &mut self,
        number: usize,
        root: u32,
        step: Try,
        value: u64,
    ) -> Result<Option<Shift>, Memory>
        requires hangs { CanHang (tree_in self.old root) step value }
        requires number { HasNumber self.old step.to number }
        ensures lifts { (shift : ShiftMade) → result ≡ Ok (Some shift) →
            Lifts (tree_in self.old root) (tree_in self.new root) step value shift }
        ensures stays { result ≡ Ok None →
            HasAsMuch (tree_in self.old root) (tree_in self.new root) step.to value }
        ensures unchanged { OnErr result
            ((each : ℕ) → tree_in self.new each ≡ tree_in self.old each) }
        ensures beside { ChangesOneTree self.old self.new root }
        ensures number { HasNumber self.new step.to number }
    {
        let spot = Spot { root, id: step.to };
        let kept = Kept {
            value,
            from: step.from.vertex,
            label: step.edge.label,
            before: step.from.state,
        };
        raise_node(
            &mut self.places,
            &mut self.puts,
            &mut self.dues,
            number,
            spot,
            kept,
        )
    }
}

/// The edge by which a node at this place hangs of which this is kept.
pub(crate) fn edge_of(kept: Kept, id: NodeId) -> EdgeId
    ensures { result ≡ record { from = kept.from; label = kept.label; to = id.vertex } }
{
    EdgeId {
        from: kept.from,
        label: kept.label,
        to: id.vertex,
    }
}
