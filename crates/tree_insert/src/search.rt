//! The tries of a search, the greatest value first.

ghost use Rattle.std.specs.Prelude.{◌≡◌, ◌^◌, ◌+◌, ◌-◌, ◌≤◌, ◌<◌, [], length, Contains, IfNone, IfSome, OnErr, OnOk};
ghost use Rattle.tree_insert.specs.declared.waiting.Waiting.{Waiting};
ghost use Rattle.tree_insert.specs.Waiting.{Gains, Takes, with_shift};
ghost use Rattle.std.specs.Prelude.{IsPermutation, IsSorted};
ghost use Rattle.delta_tree.specs.Changes.{AreDue, AreShifts, Expires, IsSameBeside, shift_ids};
ghost use Rattle.delta_tree.specs.Dues.{id_cmp};

use crate::waiting::Waiting;
use delta_tree::{Shift, Tree};
use rpq_base::Memory;
use std::alloc::Global;
use std::collections::BinaryHeap;
use std::marker::Model;

/// The room of a search for best paths. It can be used for one tree after another, so that a search
/// that touches few nodes takes no memory.
#[derive(Drop)]
pub struct Search {
    /// The tries whose value is the level. Most tries of a search have the value of the try before
    /// them, and a stack is faster than a heap.
    stack: Vec<Waiting>,
    /// The tries whose value is at most the level.
    later: BinaryHeap<Waiting>,
    level: u64,
    /// The places whose nodes the last call changed.
    shifts: Vec<Shift>,
}

impl Model for Search {
    ghost use Rattle.std.specs.Prelude.{◌++◌};
    ghost use Rattle.std.specs.BinaryHeap.{heap_items};
    ghost use Rattle.tree_insert.specs.Waiting.{SearchValue, IsSearch};

    ghost Value = { SearchValue };

    ghost view = { λ search. record {
      waiting = search.stack.items ++ heap_items search.later;
      level = search.level;
      shifts = search.shifts.items;
    } };

    ghost invariant = { λ search.
        IsSearch search.stack.items (heap_items search.later) search.level };
}

impl Search {
    /// Room that takes no memory yet.
    pub fn new(alloc: Global) -> Search {
        Search {
            stack: Vec::new(alloc),
            later: BinaryHeap::new(alloc),
            level: u64::MAX,
            shifts: Vec::new(alloc),
        }
    }

    /// The places whose nodes the last call changed, each once.
    pub fn shifts(&self) -> &[Shift]
        ensures { result.now ≡ self.now.shifts }
    {
        &self.shifts
    }

    /// Puts the shifts in the order of their places, by vertex and then by state.
    pub fn sort_shifts(&mut self)
        ensures same { IsPermutation self.old.shifts self.new.shifts }
        ensures sorted { IsSorted id_cmp (shift_ids self.new.shifts) }
    {
        self.shifts.sort_unstable_by_key(|shift| shift.id);
    }

    /// Takes exactly the nodes out of a tree whose value is at most `now`. The only error is
    /// [`Memory`], after which they are out too.
    pub fn expire(&mut self, tree: &mut Tree, now: u64) -> Result<(), Memory>
        ensures due { OnOk result (AreDue tree.old now (shift_ids self.new.shifts)) }
        ensures shifts { OnOk result (AreShifts tree.old tree.new self.new.shifts) }
        ensures gone { Expires tree.old tree.new now }
        ensures beside { IsSameBeside tree.old tree.new }
    {
        tree.cut_due(now, &mut self.shifts)
    }

    /// No try waits, and no place is reported.
    pub(crate) fn clear(&mut self)
        ensures empty { self.new.waiting ≡ [] }
        ensures level { self.new.level ≡ 2 ^ 64 - 1 }
        ensures shifts { self.new.shifts ≡ [] }
    {
        self.stack.clear();
        self.later.clear();
        self.level = u64::MAX;
        self.shifts.clear();
    }

    /// Reports one place more.
    pub(crate) fn add_shift(&mut self, shift: Shift) -> Result<(), Memory>
        ensures added { OnOk result (self.new ≡ with_shift self.old shift) }
        ensures unchanged { OnErr result (self.new ≡ self.old) }
    {
        self.shifts.push(shift)?;
        Ok(())
    }

    /// The lists are no longer than memory has room for. This is for contracts alone, and does
    /// nothing.
    pub(crate) fn fits(&self)
        ensures waiting { length self.now.waiting < 2 ^ 66 }
        ensures shifts { length self.now.shifts < 2 ^ 63 }
    {
        let _ = &self.stack;
    }

    /// Lets a try wait whose value isn't above the level.
    pub(crate) fn push(&mut self, waiting: Waiting) -> Result<(), Memory>
        requires { waiting.value ≤ self.old.level }
        ensures gains { Gains self.old self.new (λ each. each ≡ waiting) }
        ensures added { OnOk result (Contains self.new.waiting waiting) }
    {
        if waiting.value == self.level {
            self.stack.push(waiting)?;
        } else {
            self.later.push(waiting)?;
        }
        Ok(())
    }

    /// The next try, which has the greatest value of those that wait.
    pub(crate) fn take(&mut self) -> Option<Waiting>
        ensures some { IfSome result (λ taken. Takes self.old self.new taken) }
        ensures none { IfNone result
            ((each : Waiting) → Contains self.old.waiting each → ⊥) }
        ensures shifts { self.new.shifts ≡ self.old.shifts }
        ensures fewer { IfSome result (λ taken.
            length self.new.waiting + 1 ≡ length self.old.waiting) }
    {
        if let Some(next) = self.stack.pop() {
            return Some(next);
        }
        let next = self.later.pop()?;
        self.level = next.value;
        Some(next)
    }
}
