//! The queries that an object wants, and the events that it heard, counted.

ghost use Rattle.std.specs.Prelude.{◌≡◌, [], ◌∷◌, IfOk};
ghost use Rattle.standing.specs.New.{no_numbers};
ghost use Rattle.standing.specs.Objects.{wants};
ghost use Rattle.standing.specs.Said.{numbers_text};
ghost use Rattle.standing.specs.Told.{with_counted};

use rpq_base::{Event, Memory};
use std::alloc::Global;
use std::marker::Model;
use text_parts::push_decimal;

/// The queries that an object wants, and how many gains and losses it heard.
#[derive(Drop)]
pub(crate) struct Counter {
    wanted: Vec<u32>,
    added: u64,
    retracted: u64,
}

impl Model for Counter {
    ghost use Rattle.standing.specs.Counters.{CounterValue};

    ghost Value = { CounterValue };

    ghost view = { λ counter. record {
      wanted = counter.wanted.items;
      numbers = record { added = counter.added; retracted = counter.retracted };
    } };
}

impl Counter {
    /// Nothing heard yet.
    pub(crate) fn new(wanted: Vec<u32>) -> Counter
        ensures wanted { result.wanted ≡ wanted.items }
        ensures numbers { result.numbers ≡ no_numbers }
    {
        Counter {
            wanted,
            added: 0,
            retracted: 0,
        }
    }

    /// Whether the query is wanted.
    pub(crate) fn wants(&self, query: u32) -> bool
        ensures { result ≡ wants self.now.wanted query }
    {
        self.wanted.iter().any(|each| *each == query)
    }

    /// Counts an event. A number at its greatest stays there.
    pub(crate) fn count(&mut self, event: &Event)
        ensures wanted { self.new.wanted ≡ self.old.wanted }
        ensures numbers { self.new.numbers ≡ with_counted self.old.numbers (event.now ∷ []) }
    {
        if event.added {
            self.added = self.added.saturating_add(1);
        } else {
            self.retracted = self.retracted.saturating_add(1);
        }
    }

    /// The memory that the list of queries is in.
    pub(crate) fn allocator(&self) -> Global {
        *self.wanted.allocator()
    }

    /// The word, and then the two numbers.
    #[tactic(auto, unfolding(crate::specs::Said::numbers_text))]
    pub(crate) fn say(&self, word: &str) -> Result<Vec<u8>, Memory>
        ensures { IfOk result (λ text. text.items ≡ numbers_text word.now self.now.numbers) }
    {
        let mut text = Vec::new(self.allocator());
        text.extend_from_slice(word.as_bytes())?;
        text.push(b' ')?;
        push_decimal(&mut text, self.added)?;
        text.push(b' ')?;
        push_decimal(&mut text, self.retracted)?;
        Ok(text)
    }
}
