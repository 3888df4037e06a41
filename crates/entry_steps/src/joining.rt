//! What joins tell of the events of an entry.

ghost use Rattle.std.specs.Prelude.{◌≡◌, false, IfOk};
ghost use Rattle.join_bindings.specs.State.{MayCome};
ghost use Rattle.entry_steps.specs.Joining.{HaveTaken, MayTake, Takes};

use join_bindings::{ApplyFault, Joins, join_text};
use rpq_base::{Event, Memory};
use std::alloc::Global;

/// Joins that are there take the events of an entry. It answers the lines of the bindings that they
/// lose and gain by them. The only error is [`Memory`].
pub fn joined_of(
    alloc: Global,
    joins: &mut Option<Joins>,
    events: &[Event],
) -> Result<Vec<u8>, Memory>
    requires { MayTake joins.old events.now }
    ensures { IfOk result (λ lines. Takes joins.old events.now joins.new lines.items) }
{
    match joins {
        Some(joins) => lines_of(alloc, joins, events),
        None => Ok(Vec::new(alloc)),
    }
}

/// The joins take the events of an entry, and tell of them as [`joined_of`] does.
fn lines_of(alloc: Global, joins: &mut Joins, events: &[Event]) -> Result<Vec<u8>, Memory>
    requires sound { joins.old.spent ≡ false }
    requires may { MayCome joins.old.pairs events.now }
    ensures { IfOk result (λ lines. HaveTaken joins.old events.now joins.new lines.items) }
{
    match joins.apply(events) {
        Ok(changes) => join_text(alloc, &changes, joins.defs()),
        Err(ApplyFault::Memory(memory)) => Err(memory),
        Err(ApplyFault::Spent) => unreachable!(),
    }
}
