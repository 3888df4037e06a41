//! Places that a search has marked.

ghost use Rattle.std.specs.Prelude.{◌≡◌, ◌≤◌, ◌<◌, ◌⊎◌, ◌++◌, ◌∷◌, [], IsTrue, Some, slice_get};
ghost use Rattle.std.specs.Prelude.{Contains, length, OnOk};
ghost use Rattle.place_table.specs.Marking.{AddsOne, AreBefore, AreUpTo};

use delta_tree::NodeId;
use ghost_list::GhostList;
use rpq_base::Memory;
use std::alloc::Global;
use std::marker::Model;

/// A place, and the number of the search that marked it.
#[derive(Clone, Copy, Debug, PartialEq, Eq)]
struct Mark {
    id: NodeId,
    search: u32,
}

/// The places that were marked since a search began. Each is looked for at the number that its
/// caller has for it. A mark there that is of another place or of a search before counts for
/// nothing, so to begin a search costs nothing, and a mark is one write.
#[derive(Drop)]
pub(crate) struct Marks {
    /// What was marked last at each number.
    latest: Vec<Mark>,
    search: u32,
    /// All that was marked since the search began, for contracts alone.
    marked: GhostList<NodeId>,
}

impl Model for Marks {
    ghost use Rattle.std.specs.Prelude.{List};
    ghost use Rattle.delta_tree.specs.declared.node.NodeId.{NodeId};
    ghost use Rattle.place_table.specs.Marking.{AreMarks};

    ghost Value = { List NodeId };

    ghost view = { λ marks. marks.marked };

    ghost invariant = { λ marks. AreMarks marks.search marks.marked marks.latest.items };
}

impl Marks {
    /// Nothing is marked. Takes no memory.
    pub(crate) fn new(alloc: Global) -> Marks
        ensures { result ≡ [] }
    {
        Marks {
            latest: Vec::new(alloc),
            search: 0,
            marked: GhostList::new(),
        }
    }

    /// From here on nothing is marked.
    pub(crate) fn begin(&mut self)
        ensures { self.new ≡ [] }
    {
        self.search = next_search(&mut self.latest, self.search);
        self.marked = GhostList::new();
    }

    /// Marks the place, which is looked for at this number. The only error is [`Memory`].
    pub(crate) fn mark(&mut self, number: usize, id: NodeId) -> Result<(), Memory>
        ensures { self.new ≡ self.old ++ id ∷ [] }
    {
        self.marked.push(&id);
        let mark = Mark {
            id,
            search: self.search,
        };
        put(&mut self.latest, number, mark)
    }

    /// Whether the place is marked, if it is looked for at this number.
    pub(crate) fn is_marked(&self, number: usize, id: NodeId) -> bool
        ensures { IsTrue result → Contains self.now id }
    {
        let mark = Mark {
            id,
            search: self.search,
        };
        stands_at(&self.latest, number, mark)
    }
}

/// The search after this one. After the last number that there is, all marks are forgotten, and the
/// numbers begin again.
fn next_search(latest: &mut Vec<Mark>, search: u32) -> u32
    requires { AreUpTo search latest.old.items }
    ensures { AreBefore result latest.new.items }
{
    if search == u32::MAX {
        latest.clear();
        return 0;
    }
    search + 1
}

/// Puts the mark at this number.
fn put(latest: &mut Vec<Mark>, number: usize, mark: Mark) -> Result<(), Memory>
    ensures { AddsOne latest.old.items latest.new.items mark }
{
    reach(latest, number, mark)?;
    latest[number] = mark;
    Ok(())
}

/// Makes the list longer by this mark until it has one at the number.
fn reach(latest: &mut Vec<Mark>, number: usize, mark: Mark) -> Result<(), Memory>
    ensures adds { AddsOne latest.old.items latest.new.items mark }
    ensures reached { OnOk result (number < length latest.new.items) }
{
    while latest.len() <= number {
        latest.push(mark)?;
    }
    Ok(())
}

/// Whether the mark is the one at this number.
fn stands_at(latest: &[Mark], number: usize, mark: Mark) -> bool
    ensures { IsTrue result → slice_get latest.now number ≡ Some mark }
{
    number < latest.len() && latest[number] == mark
}
