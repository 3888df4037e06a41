//! What an entry brings.

use end_events::EntryEvents;
use path_witness::ShownPath;
use std::marker::Model;

/// What an entry brings.
pub struct Step<'a> {
    /// The pairs that the queries lose and gain.
    pub events: EntryEvents<'a>,
    /// Where paths are told, for each addition in order a path that shows it.
    pub shown: Vec<ShownPath>,
    /// The lines of the bindings that the joins lose and gain, as text.
    pub joined: Vec<u8>,
}

impl<'a> Drop for Step<'a> {
    fn drop(self) {
        let Step {
            events: _events,
            shown: _shown,
            joined: _joined,
        } = self;
    }
}

impl<'a> Model for Step<'a> {
    ghost use Rattle.entry_steps.specs.Steps.{StepValue};

    ghost Value = { StepValue };

    ghost view = { λ step. record {
      events = step.events;
      shown = step.shown.items;
      joined = step.joined.items;
    } };
}
