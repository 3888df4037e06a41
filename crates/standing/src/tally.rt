//! The object that counts.

ghost use Rattle.std.specs.Prelude.{◌≡◌, IfOk, None, codes};
ghost use Rattle.std.specs.List.{range_with_len};
ghost use Rattle.standing.specs.New.{IsNewObject};

use crate::counter::Counter;
use crate::object::{Standing, Stay};
use rpq_base::{Event, Memory};
use std::alloc::{AllocError, Global};
use std::marker::Model;

/// Counts the gains and the losses of all queries. It never leaves.
#[derive(Drop)]
pub struct Tally {
    counter: Counter,
}

impl Model for Tally {
    ghost use Rattle.std.specs.Prelude.{None, false, codes};
    ghost use Rattle.standing.specs.Objects.{ObjectValue};
    ghost use Rattle.standing.specs.Said.{numbers_text};

    ghost Value = { ObjectValue };

    ghost view = { λ tally. record {
      wanted = tally.counter.wanted;
      numbers = tally.counter.numbers;
      heard = None;
      said = numbers_text (codes "tally") tally.counter.numbers;
      gone = false;
    } };
}

/// The numbers of all queries that a run may have.
fn all_queries(alloc: Global) -> Result<Vec<u32>, AllocError>
    ensures { IfOk result (λ queries. queries.items ≡ range_with_len 0 64) }
{
    (0..64).collect(alloc)
}

impl Tally {
    /// Wants queries 0 to 63, which are all that a run has.
    pub fn all(alloc: Global) -> Result<Tally, Memory>
        ensures { IfOk result (IsNewObject (range_with_len 0 64) (codes "tally 0 0") None) }
    {
        let queries = all_queries(alloc)?;
        Ok(Tally {
            counter: Counter::new(queries),
        })
    }
}

impl Standing for Tally {
    ghost seen = { λ tally. tally };

    fn wants(&self, query: u32) -> bool {
        self.counter.wants(query)
    }

    fn tell(&mut self, event: &Event) -> Result<Stay, Memory> {
        self.counter.count(event);
        Ok(Stay::Keep)
    }

    fn say(&self) -> Result<Vec<u8>, Memory> {
        self.counter.say("tally")
    }
}
