//! Events by numbers are given copies of their names.

ghost use Rattle.std.specs.Prelude.{◌≡◌, All, IfOk, map};
ghost use Rattle.end_events.specs.Named.{named, named_lists, HasNames, HaveAllNames};

use crate::numbered_event::NumberedEvent;
use name_table::Names;
use rpq_base::{Event, Memory, Pair, TryClone};
use std::alloc::Global;

/// The events of each list, each with copies of its names. The only error is [`Memory`].
pub fn name_lists(
    alloc: Global,
    names: &Names,
    lists: &[Vec<NumberedEvent>],
) -> Result<Vec<Vec<Event>>, Memory>
    requires { HaveAllNames names.now lists.now }
    ensures { IfOk result (λ owns.
        map (λ own. own.items) owns.items ≡ named_lists names.now lists.now) }
{
    let mut owns = Vec::with_capacity(alloc, lists.len())?;
    for list in lists {
        owns.push(name_events(alloc, names, list)?)?;
    }
    Ok(owns)
}

/// The events, each with copies of its names. The only error is [`Memory`].
pub fn name_events(
    alloc: Global,
    names: &Names,
    events: &[NumberedEvent],
) -> Result<Vec<Event>, Memory>
    requires { All (HasNames names.now) events.now }
    ensures { IfOk result (λ own. own.items ≡ map (named names.now) events.now) }
{
    let mut own = Vec::with_capacity(alloc, events.len())?;
    for event in events {
        own.push(name_event(names, event)?)?;
    }
    Ok(own)
}

/// The event with copies of its names.
fn name_event(names: &Names, event: &NumberedEvent) -> Result<Event, Memory>
    requires { HasNames names.now event.now }
    ensures { IfOk result (λ one. one ≡ named names.now event.now) }
{
    Ok(Event {
        query: event.query,
        added: event.added,
        pair: Pair {
            from: names.name_of(event.root).copy()?,
            to: names.name_of(event.vertex).copy()?,
        },
    })
}
