//! The pairs of the queries, changed by events.

ghost use Rattle.std.specs.Prelude.{◌≡◌, ◌<◌, length, All, OnOk};
ghost use Rattle.join_bindings.specs.State.{ArePut, AreApart};

use crate::query_pairs::QueryPairs;
use rpq_base::{Event, Memory};

/// Puts the pairs of additions in and takes those of retractions out.
pub(crate) fn change(sets: &mut QueryPairs, events: &[Event]) -> Result<(), Memory>
    requires within { All (λ event. event.query < length sets.old) events.now }
    requires apart { AreApart events.now }
    ensures many { length sets.new ≡ length sets.old }
    ensures put { OnOk result (ArePut sets.old sets.new events.now) }
{
    for event in events {
        sets.take_event(event)?;
    }
    Ok(())
}
