//! A queue of items with numbers.

ghost use Rattle.std.specs.Prelude.{◌≡◌, ◌+◌, ◌*◌, ◌<◌, ◌≤◌, [], length, List, OnOk, OnErr, OnSome, IfSome, IfNone};
ghost use Rattle.std.specs.Bool.{OnTrue, OnFalse};
ghost use Rattle.std.specs.Fn.{CalledAt};
ghost use Rattle.std.specs.List.Retain.{IsFiltered};
ghost use Rattle.std.specs.List.Sorted.{IsPermutation};
ghost use Rattle.due_queue.specs.declared.due.Due.{Due as DueMade};
ghost use Rattle.due_queue.specs.Queue.{AllAbove, AllFrom, Notes, TakesNext, due};

use crate::due::Due;
use crate::room::room_to_keep;
use rpq_base::Memory;
use std::alloc::Global;
use std::collections::BinaryHeap;
use std::marker::Model;

/// Items with numbers. The least number comes first.
///
/// Contracts see the list of what is noted, whose order says nothing, and the room for more.
#[derive(Drop)]
pub struct DueQueue<T: Copy> {
    heap: BinaryHeap<Due<T>>,
}

impl<T: Copy> Model for DueQueue<T> {
    ghost use Rattle.std.specs.Prelude.{◌-◌};
    ghost use Rattle.std.specs.Ordering.{nat_cmp};
    ghost use Rattle.std.specs.BinaryHeap.{IsHeap, heap_items, heap_len, heap_capacity};
    ghost use Rattle.due_queue.specs.Queue.{QueueValue};

    ghost Value = { QueueValue T };

    ghost view = { λ queue. record {
      items = heap_items queue.heap;
      room = heap_capacity queue.heap - heap_len queue.heap;
    } };

    ghost invariant = { λ queue.
        IsHeap (λ x y. nat_cmp y.number x.number) (heap_items queue.heap) };
}

impl<T: Copy> DueQueue<T> {
    /// Nothing is noted. Takes no memory.
    pub fn new(alloc: Global) -> DueQueue<T>
        ensures { result.items ≡ [] }
    {
        DueQueue {
            heap: BinaryHeap::new(alloc),
        }
    }

    /// How many are noted.
    pub fn len(&self) -> usize
        ensures { result ≡ length self.now.items }
    {
        self.heap.len()
    }

    /// Makes room for one more.
    pub fn reserve(&mut self) -> Result<(), Memory>
        ensures same { self.new.items ≡ self.old.items }
        ensures room { OnOk result (0 < self.new.room) }
    {
        self.heap.reserve(1)?;
        Ok(())
    }

    /// Notes the item with this number. There is room for it.
    pub fn note_reserved(&mut self, item: T, number: u64)
        requires { 0 < self.old.room }
        ensures { Notes self.old.items self.new.items (due item number) }
    {
        self.note_in_room(item, number);
    }

    /// Notes the item with this number, as [`DueQueue::note_reserved`] does, and takes the room of
    /// one alone: for whoever notes many into room that was made before.
    pub fn note_in_room(&mut self, item: T, number: u64)
        requires { 0 < self.old.room }
        ensures noted { Notes self.old.items self.new.items (due item number) }
        ensures room { self.old.room ≤ self.new.room + 1 }
    {
        let _ = self.heap.push(Due { item, number });
    }

    /// Notes the item with this number. The only error is [`Memory`], after which the same are
    /// noted as before.
    pub fn note(&mut self, item: T, number: u64) -> Result<(), Memory>
        ensures noted { OnOk result (Notes self.old.items self.new.items (due item number)) }
        ensures unchanged { OnErr result (self.new.items ≡ self.old.items) }
    {
        self.heap.push(Due { item, number })?;
        Ok(())
    }

    /// The least number, or none where nothing is noted. This is one look at the heap.
    pub fn first_due(&self) -> Option<u64>
        ensures none { IfNone result (self.now.items ≡ []) }
        ensures least { IfSome result (λ least. AllFrom least self.now.items) }
    {
        Some(self.heap.peek()?.number)
    }

    /// Takes one of the least number out, where this is at most `now`. Where it isn't, this is one
    /// comparison.
    pub fn next_due(&mut self, now: u64) -> Option<Due<T>>
        ensures next { IfSome result (TakesNext now self.old.items self.new.items) }
        ensures fewer { OnSome result (length self.new.items + 1 ≡ length self.old.items) }
        ensures room { OnSome result (0 < self.new.room) }
        ensures later { IfNone result (AllAbove now self.old.items) }
        ensures same { IfNone result (self.new.items ≡ self.old.items) }
    {
        if self.heap.peek()?.number > now {
            return None;
        }
        self.heap.pop()
    }

    /// Whether several times as many are noted as this number, so that it is time to look through
    /// them for outdated ones.
    pub fn has_outgrown(&self, present: usize) -> bool
        ensures more { OnTrue result (4 * present < length self.now.items) }
        ensures few { OnFalse result (length self.now.items ≤ 4 * present + 67) }
    {
        self.heap.len() / 4 > present.saturating_add(16)
    }

    /// Keeps those alone of which this is true.
    pub fn retain<F: FnMut(&Due<T>) -> bool>(&mut self, wanted: F)
        requires { F.IsAlwaysCallable wanted }
        ensures { (kept : List (DueMade T)) ×
            IsFiltered (CalledAt F.FnMut) wanted self.old.items kept
            × IsPermutation kept self.new.items }
    {
        self.heap.retain(wanted);
    }

    /// Gives the memory back that the queue needs no more.
    pub fn give_back(&mut self)
        ensures { self.new.items ≡ self.old.items }
    {
        if let Some(room) = room_to_keep(self.heap.len(), self.heap.capacity()) {
            self.heap.shrink_to(room);
        }
    }

    /// Forgets all.
    pub fn clear(&mut self)
        ensures { self.new.items ≡ [] }
    {
        self.forget_all();
    }

    /// Forgets all, as [`DueQueue::clear`] does, and keeps the room of what was noted.
    pub fn forget_all(&mut self)
        ensures forgotten { self.new.items ≡ [] }
        ensures room { length self.old.items ≤ self.new.room }
    {
        self.heap.clear();
    }
}
