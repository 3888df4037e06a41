//! The object that keeps all that it heard.

ghost use Rattle.std.specs.Prelude.{[], Some, codes};
ghost use Rattle.standing.specs.New.{IsNewObject};

use crate::counter::Counter;
use crate::object::{Standing, Stay};
use rpq_base::{Event, Memory, TryClone};
use std::alloc::Global;
use std::marker::Model;

/// Keeps all events that it heard. It never leaves.
#[derive(Drop)]
pub struct Roll {
    counter: Counter,
    events: Vec<Event>,
}

impl Model for Roll {
    ghost use Rattle.std.specs.Prelude.{Some, false, codes};
    ghost use Rattle.standing.specs.Objects.{ObjectValue};
    ghost use Rattle.standing.specs.Said.{numbers_text};

    ghost Value = { ObjectValue };

    ghost view = { λ roll. record {
      wanted = roll.counter.wanted;
      numbers = roll.counter.numbers;
      heard = Some roll.events.items;
      said = numbers_text (codes "roll") roll.counter.numbers;
      gone = false;
    } };
}

impl Roll {
    /// Wants these queries. Takes no memory.
    pub fn new(alloc: Global, wanted: Vec<u32>) -> Roll
        ensures { IsNewObject wanted.items (codes "roll 0 0") (Some []) result }
    {
        Roll {
            counter: Counter::new(wanted),
            events: Vec::new(alloc),
        }
    }
}

impl Standing for Roll {
    ghost seen = { λ roll. roll };

    fn wants(&self, query: u32) -> bool {
        self.counter.wants(query)
    }

    fn tell(&mut self, event: &Event) -> Result<Stay, Memory> {
        self.events.push(event.copy()?)?;
        self.counter.count(event);
        Ok(Stay::Keep)
    }

    fn say(&self) -> Result<Vec<u8>, Memory> {
        self.counter.say("roll")
    }
}
