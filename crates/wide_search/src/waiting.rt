//! The batches of a search, the greatest width first.

ghost use Rattle.std.specs.Prelude.{◌≡◌, ◌^◌, ◌+◌, ◌-◌, ◌≤◌, ◌<◌, [], length, Contains, IfNone, IfSome, OnOk};
ghost use Rattle.wide_search.specs.declared.batch.Batch.{Batch};
ghost use Rattle.wide_search.specs.Batches.{Gains, Takes};

use crate::batch::Batch;
use rpq_base::Memory;
use std::alloc::Global;
use std::collections::BinaryHeap;
use std::marker::Model;

/// The batches that wait. The room can be used for one search after another.
#[derive(Drop)]
pub(crate) struct Batches {
    /// The batches whose width is the level. Most batches of a search have the width of the batch
    /// before them, and a stack is faster than a heap.
    stack: Vec<Batch>,
    /// The batches whose width is at most the level.
    later: BinaryHeap<Batch>,
    level: u64,
}

impl Model for Batches {
    ghost use Rattle.std.specs.Prelude.{◌++◌};
    ghost use Rattle.std.specs.BinaryHeap.{heap_items};
    ghost use Rattle.wide_search.specs.Batches.{BatchesValue, AreLevelled};

    ghost Value = { BatchesValue };

    ghost view = { λ batches. record {
      waiting = batches.stack.items ++ heap_items batches.later;
      level = batches.level;
    } };

    ghost invariant = { λ batches.
        AreLevelled batches.stack.items (heap_items batches.later) batches.level };
}

impl Batches {
    /// Room that takes no memory yet.
    pub(crate) fn new(alloc: Global) -> Batches {
        Batches {
            stack: Vec::new(alloc),
            later: BinaryHeap::new(alloc),
            level: u64::MAX,
        }
    }

    /// No batch waits.
    pub(crate) fn clear(&mut self)
        ensures empty { self.new.waiting ≡ [] }
        ensures level { self.new.level ≡ 2 ^ 64 - 1 }
    {
        self.stack.clear();
        self.later.clear();
        self.level = u64::MAX;
    }

    /// The lists are no longer than memory has room for. This is for contracts alone, and does
    /// nothing.
    pub(crate) fn fits(&self)
        ensures { length self.now.waiting < 2 ^ 66 }
    {
        let _ = &self.stack;
    }

    /// Lets a batch wait whose width isn't above the level.
    pub(crate) fn push(&mut self, batch: Batch) -> Result<(), Memory>
        requires { batch.width ≤ self.old.level }
        ensures gains { Gains self.old self.new (λ each. each ≡ batch) }
        ensures added { OnOk result (Contains self.new.waiting batch) }
    {
        if batch.width == self.level {
            self.stack.push(batch)?;
        } else {
            self.later.push(batch)?;
        }
        Ok(())
    }

    /// The next batch, which has the greatest width of those that wait.
    pub(crate) fn take(&mut self) -> Option<Batch>
        ensures some { IfSome result (λ taken. Takes self.old self.new taken) }
        ensures none { IfNone result
            ((each : Batch) → Contains self.old.waiting each → ⊥) }
        ensures fewer { IfSome result (λ taken.
            length self.new.waiting + 1 ≡ length self.old.waiting) }
    {
        if let Some(next) = self.stack.pop() {
            return Some(next);
        }
        let next = self.later.pop()?;
        self.level = next.width;
        Some(next)
    }
}
