//! Objects are told of events.

ghost use Rattle.std.specs.Prelude.{⊤, OnOk, OnErr};
ghost use Rattle.standing.specs.Circles.{as_seen};
ghost use Rattle.engine_loop.specs.Telling.{TellsOn};

use end_events::EntryEvents;
use rpq_base::Memory;
use standing::{Circle, Standing};
use std::alloc::Global;

/// Tells the objects of these events, which get copies of their names where there are objects. The
/// only error is [`Memory`], after which a front of the events was told.
pub fn tell_events<O: Standing>(
    alloc: Global,
    circle: &mut Circle<O>,
    events: &EntryEvents<'_>,
) -> Result<(), Memory>
    ensures told { OnOk result (TellsOn events.now ⊤
        (as_seen O.seen circle.old) (as_seen O.seen circle.new)) }
    ensures part { OnErr result (TellsOn events.now ⊥
        (as_seen O.seen circle.old) (as_seen O.seen circle.new)) }
{
    if circle.members().is_empty() {
        return Ok(());
    }
    let named = events.to_events(alloc)?;
    circle.tell_each(&named)
}
