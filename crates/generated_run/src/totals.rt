//! What a run counts.

ghost use Rattle.std.specs.Prelude.{◌≡◌, ◌+◌, ◌<◌, ◌^◌, length};
ghost use Rattle.generated_run.specs.Summary.{additions, retractions};
ghost use Rattle.generated_run.specs.Totals.{no_totals, HasCounted};

use end_events::EntryEvents;
use std::marker::Model;

/// How many entries were answered, and how many of their events add a pair or retract one.
#[derive(Drop)]
pub struct Totals {
    pub entries: u64,
    pub added: u128,
    pub retracted: u128,
}

impl Model for Totals {
    ghost use Rattle.generated_run.specs.Totals.{TotalsValue, AreWithin};

    ghost Value = { TotalsValue };

    ghost view = { λ totals. record {
      entries = totals.entries;
      added = totals.added;
      retracted = totals.retracted;
    } };

    ghost invariant = { λ totals. AreWithin (record {
      entries = totals.entries;
      added = totals.added;
      retracted = totals.retracted;
    }) };
}

impl Totals {
    /// Nothing yet.
    pub fn new() -> Totals
        ensures { result ≡ no_totals }
    {
        Totals {
            entries: 0,
            added: 0,
            retracted: 0,
        }
    }

    /// Counts an entry with its events.
    pub fn count(&mut self, events: &EntryEvents<'_>)
        requires { self.old.entries < 2 ^ 61 }
        ensures { HasCounted 1 events.now self.old self.new }
    {
        let added = additions(events);
        self.entries += 1;
        self.added += added as u128;
        self.retracted += (events.len() - added) as u128;
    }
}

/// How many of the events add a pair. The others retract one.
fn additions(events: &EntryEvents<'_>) -> usize
    ensures added { result ≡ additions events.now }
    ensures others { result + retractions events.now ≡ length events.now }
{
    let mut count = 0;
    for place in 0..events.len() {
        if events.at(place).added {
            count += 1;
        }
    }
    count
}
