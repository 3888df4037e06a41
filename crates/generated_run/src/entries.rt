//! The entries of the history, which are made when they are asked for.

ghost use Rattle.std.specs.Prelude.{◌≡◌, ◌+◌, ◌-◌, ◌<◌, ◌≤◌, min, OnOk, OnErr};
ghost use Rattle.tuple_generator.specs.Generator.{generated_history};

use engine_loop::{AfterShrink, EntrySource, StepSink};
use entry_steps::Evaluator;
use rpq_base::{Entry, Memory, copy_all};
use std::alloc::Global;
use std::marker::Model;
use tuple_generator::{generated, history_is_of_first_stream, history_takes_one_more, seeds_go_on};

/// The most entries that are given once more at a time.
const AT_ONCE: u64 = 256;

/// The entries of the first generated tuples, up to as many as are wanted, and the seed that the
/// next one is made with.
///
/// Contracts see how many there are, which says what they are; how many there were before the last
/// front; and how many are wanted.
#[derive(Drop)]
pub struct GeneratedEntries {
    alloc: Global,
    entries: Vec<Entry>,
    seed: u64,
    before: usize,
    wanted: u64,
}

impl Model for GeneratedEntries {
    ghost use Rattle.std.specs.Prelude.{length};
    ghost use Rattle.generated_run.specs.Made.{MadeValue, AreMade};

    ghost Value = { MadeValue };

    ghost view = { λ made. record {
      count = length made.entries.items;
      before = made.before;
      wanted = made.wanted;
    } };

    ghost invariant = { λ made. AreMade made.entries.items made.seed made.before made.wanted };
}

impl GeneratedEntries {
    /// No entry yet, of so many that are wanted. Takes no memory.
    pub fn new(alloc: Global, wanted: u64) -> GeneratedEntries
        requires { wanted ≤ 1000000 }
        ensures none { result.count ≡ 0 }
        ensures wanted { result.wanted ≡ wanted }
    {
        history_takes_one_more(); // these are called for their clauses
        seeds_go_on();
        GeneratedEntries {
            alloc,
            entries: Vec::new(alloc),
            seed: 1,
            before: 0,
            wanted,
        }
    }

    /// All entries.
    pub fn into_entries(self) -> Vec<Entry>
        ensures entries { result.items ≡ generated_history self.count }
        ensures within { self.count ≤ self.wanted }
    {
        self.entries
    }

    /// Makes so many entries more, or as many as are still wanted. The only error is [`Memory`].
    fn make(&mut self, more: u64) -> Result<(), Memory>
        ensures ok { OnOk result
            (self.new.count ≡ self.old.count + min more (self.old.wanted - self.old.count)) }
        ensures more { self.old.count ≤ self.new.count }
        ensures before { self.new.before ≡ self.old.before }
        ensures wanted { self.new.wanted ≡ self.old.wanted }
    {
        let count = self.entries.len() as u64;
        let end = count + more.min(self.wanted - count);
        for _place in count..end {
            self.push()?;
        }
        Ok(())
    }

    /// Makes one entry more. The only error is [`Memory`].
    fn push(&mut self) -> Result<(), Memory>
        requires { self.old.count < self.old.wanted }
        ensures ok { OnOk result (self.new.count ≡ self.old.count + 1) }
        ensures unchanged { OnErr result (self.new.count ≡ self.old.count) }
        ensures before { self.new.before ≡ self.old.before }
        ensures wanted { self.new.wanted ≡ self.old.wanted }
    {
        history_takes_one_more(); // these are called for their clauses
        seeds_go_on();
        let position = self.entries.len() as u64 + 1;
        let (tuple, next) = generated(self.alloc, position, self.seed)?;
        self.entries.push(Entry { stream: 1, tuple })?;
        self.seed = next;
        Ok(())
    }
}

impl EntrySource for GeneratedEntries {
    ghost use Rattle.std.specs.Prelude.{take, drop};

    type Home = u64;

    ghost home = { λ made. made.wanted };

    ghost given = { λ made. generated_history made.count };

    ghost kept = { λ made. take made.before (generated_history made.count) };

    ghost front = { λ made. drop made.before (generated_history made.count) };

    ghost feeds = { λ made evaluator. evaluator.position ≤ made.count };

    ghost is_over = { λ made. made.count ≡ made.wanted };

    /// Makes the next front of entries, as many as the evaluator takes at once and as are still
    /// wanted, and answers whether there are any.
    fn next<K: StepSink>(&mut self, evaluator: &Evaluator, _sink: &K) -> Result<bool, Memory> {
        history_is_of_first_stream(); // called for its clause
        self.before = self.entries.len();
        self.make(evaluator.at_once() as u64)?;
        Ok(self.before < self.entries.len())
    }

    fn front(&self) -> &[Entry] {
        &self.entries[self.before..]
    }

    fn kept_count(&self) -> u64 {
        history_is_of_first_stream(); // called for its clause
        self.before as u64
    }

    fn again(&mut self, from: u64) -> Result<Vec<Entry>, Memory> {
        history_is_of_first_stream(); // called for its clause
        let end = from + AT_ONCE.min(self.before as u64 - from);
        copy_all(self.alloc, &self.entries[from as usize..end as usize])
    }

    fn wants_view(&self) -> bool {
        false
    }

    /// Nobody reads along.
    fn publish<K: StepSink>(
        &mut self,
        _evaluator: &mut Evaluator,
        _sink: &K,
    ) -> Result<(), Memory> {
        history_is_of_first_stream(); // called for its clause
        Ok(())
    }

    /// All entries are there until the end.
    fn shrink(&mut self, _evaluator: &Evaluator) -> Result<AfterShrink, Memory> {
        Ok(AfterShrink::GoOn)
    }
}
