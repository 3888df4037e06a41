//! What an engine told of the entries that it was fed.

ghost use Rattle.std.specs.Prelude.{◌≡◌, IfOk, map};
ghost use Rattle.end_events.specs.Named.{named_lists, HaveAllNames};
ghost use Rattle.engine_feed.specs.EventLists.{lists_of, HaveNames};

use end_events::{EntryEvents, NumberedEvent};
use name_table::Names;
use rpq_base::{Event, Memory};
use std::alloc::Global;

/// The events of each of some entries, as an engine told them.
#[derive(Drop)]
pub enum EventLists {
    /// By the numbers that names have in the engine.
    Numbered(Vec<Vec<NumberedEvent>>),
    /// With names of their own.
    Named(Vec<Vec<Event>>),
}

impl EventLists {
    /// The events of each entry, of which those by numbers have the names lent. No event is copied.
    /// The only error is [`Memory`].
    pub fn into_events<'a>(
        self,
        alloc: Global,
        names: &'a Names,
    ) -> Result<Vec<EntryEvents<'a>>, Memory>
        requires { HaveNames names.now self }
        ensures { IfOk result (λ lists. lists.items ≡ lists_of names.now self) }
    {
        match self {
            EventLists::Numbered(lists) => numbered_each(alloc, names, lists),
            EventLists::Named(lists) => owned_each(alloc, lists),
        }
    }
}

/// The events of each entry by these names.
fn numbered_each<'a>(
    alloc: Global,
    names: &'a Names,
    lists: Vec<Vec<NumberedEvent>>,
) -> Result<Vec<EntryEvents<'a>>, Memory>
    requires { HaveAllNames names.now lists.items }
    ensures { IfOk result (λ events. events.items ≡ named_lists names.now lists.items) }
{
    let mut events = Vec::with_capacity(alloc, lists.len())?;
    for own in lists {
        events.push(EntryEvents::numbered(names, own))?;
    }
    Ok(events)
}

/// The events of each entry with names of their own.
fn owned_each<'a>(alloc: Global, lists: Vec<Vec<Event>>) -> Result<Vec<EntryEvents<'a>>, Memory>
    ensures { IfOk result (λ events. events.items ≡ map (λ own. own.items) lists.items) }
{
    let mut events = Vec::with_capacity(alloc, lists.len())?;
    for own in lists {
        events.push(EntryEvents::owned(own))?;
    }
    Ok(events)
}
