//! Roots with numbers.

ghost use Rattle.std.specs.Prelude.{◌≡◌, ◌<◌, [], false, length, IsTrue, IfOk, OnOk, OnErr, OnSome, IfSome, IfNone, None, Some};
ghost use Rattle.source_index.specs.Dues.{AllLater, GivesDue, IsDueBy, due_of, lowered};

use crate::memory::give_back;
use crate::queue::{forget_former, next_root};
use due_queue::DueQueue;
use indexmap::IndexMap;
use indexmap::map::Entry;
use rpq_base::Memory;
use std::alloc::Global;
use std::marker::Model;

/// A number for each of some roots. The roots are taken in the order of their numbers.
#[derive(Drop)]
pub struct Dues {
    numbers: IndexMap<u32, u64>,
    /// Each root with its number, and with numbers that it had.
    queue: DueQueue<u32>,
}

impl Model for Dues {
    ghost use Rattle.source_index.specs.Dues.{DuesValue};
    ghost use Rattle.source_index.specs.Queue.{AreNoted};

    ghost Value = { DuesValue };

    ghost view = { λ dues. dues.numbers.entries };

    ghost invariant = { λ dues. AreNoted dues.numbers.entries dues.queue.items };
}

/// Gives the root this number, where it has no lower one. Answers whether its number changed.
fn lower(numbers: &mut IndexMap<u32, u64>, root: u32, number: u64) -> Result<bool, Memory>
    ensures lowered { OnOk result (GivesDue numbers.old.entries numbers.new.entries root
        (Some (lowered (due_of numbers.old.entries root) number))) }
    ensures changed { IfOk result (λ changed. IsTrue changed →
        GivesDue numbers.old.entries numbers.new.entries root (Some number)) }
    ensures kept { IfOk result (λ changed. changed ≡ false →
        numbers.new.entries ≡ numbers.old.entries) }
    ensures unchanged { OnErr result (numbers.new.entries ≡ numbers.old.entries) }
{
    match numbers.entry(root)? {
        Entry::Occupied(mut held) => {
            if *held.get() <= number {
                return Ok(false);
            }
            held.insert(number);
            Ok(true)
        }
        Entry::Vacant(free) => {
            free.insert(number);
            Ok(true)
        }
    }
}

impl Dues {
    /// No root has a number. Takes no memory.
    pub fn new(alloc: Global) -> Dues
        ensures { result ≡ [] }
    {
        Dues {
            numbers: IndexMap::new(alloc),
            queue: DueQueue::new(alloc),
        }
    }

    /// Gives the root this number, where it has no lower one. The only error is [`Memory`], after
    /// which all is as before.
    pub fn note(&mut self, root: u32, number: u64) -> Result<(), Memory>
        ensures noted { OnOk result
            (GivesDue self.old self.new root (Some (lowered (due_of self.old root) number))) }
        ensures unchanged { OnErr result (self.new ≡ self.old) }
    {
        self.queue.reserve()?;
        if lower(&mut self.numbers, root, number)? {
            self.queue.note_reserved(root, number);
            forget_former(&self.numbers, &mut self.queue);
        }
        Ok(())
    }

    /// Takes the number of a root away that is at most `now`, and answers the root; none where no
    /// root has such a number, which costs one comparison. Memory is given back where most of it
    /// isn't used any more.
    pub fn take(&mut self, now: u64) -> Option<u32>
        ensures due { IfSome result (IsDueBy self.old now) }
        ensures taken { IfSome result (λ root. GivesDue self.old self.new root None) }
        ensures fewer { OnSome result (length self.new < length self.old) }
        ensures later { IfNone result (AllLater self.old now) }
        ensures same { IfNone result (self.new ≡ self.old) }
    {
        let root = self.take_out(now)?;
        self.give_back();
        Some(root)
    }

    /// Gives the memory back that the numbers need no more.
    fn give_back(&mut self)
        ensures { self.new ≡ self.old }
    {
        forget_former(&self.numbers, &mut self.queue);
        give_back(&mut self.numbers);
    }

    /// Takes the number of a root away that is at most `now`, and keeps all memory.
    fn take_out(&mut self, now: u64) -> Option<u32>
        ensures due { IfSome result (IsDueBy self.old now) }
        ensures taken { IfSome result (λ root. GivesDue self.old self.new root None) }
        ensures fewer { OnSome result (length self.new < length self.old) }
        ensures later { IfNone result (AllLater self.old now) }
        ensures same { IfNone result (self.new ≡ self.old) }
    {
        let root = next_root(&self.numbers, &mut self.queue, now)?;
        self.numbers.swap_remove(&root);
        Some(root)
    }

    /// Takes all numbers away.
    pub fn clear(&mut self)
        ensures { self.new ≡ [] }
    {
        self.numbers.clear();
        self.queue.clear();
    }
}
