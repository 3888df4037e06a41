//! The events of an entry, by numbers with the names lent, or with names of their own.

ghost use Rattle.std.specs.Prelude.{◌≡◌, ◌<◌, ◌==◌, All, Some, IfOk, length, map, slice_get};
ghost use Rattle.end_events.specs.Named.{named, HasNames};

use crate::naming::name_events;
use crate::numbered_event::NumberedEvent;
use name_table::Names;
use rpq_base::{Event, Memory, Name, copy_all};
use std::alloc::Global;
use std::marker::Model;

/// The events of an entry, as std's `Cow` holds a text: by numbers with the table of names lent, or
/// with names of their own. Contracts see the list of the events with their names either way.
#[derive(Drop)]
pub struct EntryEvents<'a> {
    held: HeldEvents<'a>,
}

/// How the events of an entry are held.
#[derive(Drop)]
pub(crate) enum HeldEvents<'a> {
    /// By the numbers of these names.
    Numbered(&'a Names, Vec<NumberedEvent>),
    /// With names of their own.
    Owned(Vec<Event>),
}

impl<'a> Model for EntryEvents<'a> {
    ghost use Rattle.std.specs.Prelude.{List};
    ghost use Rattle.rpq_base.specs.declared.data.Event.{Event};
    ghost use Rattle.end_events.specs.EntryEvents.{events_in, HaveTheirNames};

    ghost Value = { List Event };

    ghost view = { λ events. events_in events.held };

    ghost invariant = { λ events. HaveTheirNames events.held };
}

/// An event with its names lent.
#[derive(Clone, Copy, Debug)]
pub struct EventRef<'a> {
    pub query: u32,
    pub added: bool,
    pub from: &'a Name,
    pub to: &'a Name,
}

impl<'a> EntryEvents<'a> {
    /// Events by the numbers of these names.
    pub fn numbered(names: &'a Names, events: Vec<NumberedEvent>) -> EntryEvents<'a>
        requires { All (HasNames names.now) events.items }
        ensures { result ≡ map (named names.now) events.items }
    {
        EntryEvents {
            held: HeldEvents::Numbered(names, events),
        }
    }

    /// Events with names of their own.
    pub fn owned(events: Vec<Event>) -> EntryEvents<'a>
        ensures { result ≡ events.items }
    {
        EntryEvents {
            held: HeldEvents::Owned(events),
        }
    }

    /// How many events there are.
    pub fn len(&self) -> usize
        ensures { result ≡ length self.now }
    {
        match &self.held {
            HeldEvents::Numbered(_, events) => events.len(),
            HeldEvents::Owned(events) => events.len(),
        }
    }

    /// Whether there are none.
    pub fn is_empty(&self) -> bool
        ensures { result ≡ (length self.now == 0) }
    {
        self.len() == 0
    }

    /// The event at this place, from 0, with its names lent.
    pub fn at(&self, place: usize) -> EventRef<'_>
        requires { place < length self.now }
        ensures { slice_get self.now place ≡ Some (record {
          query = result.query;
          added = result.added;
          pair = record { from = result.from.now; to = result.to.now };
        }) }
    {
        match &self.held {
            HeldEvents::Numbered(names, events) => numbered_at(names, events, place),
            HeldEvents::Owned(events) => owned_at(events, place),
        }
    }

    /// The events, each with copies of its names. The only error is [`Memory`].
    pub fn to_events(&self, alloc: Global) -> Result<Vec<Event>, Memory>
        ensures { IfOk result (λ events. events.items ≡ self.now) }
    {
        match &self.held {
            HeldEvents::Numbered(names, events) => name_events(alloc, names, events),
            HeldEvents::Owned(events) => copy_all(alloc, events),
        }
    }
}

/// The event at this place, by these names.
fn numbered_at<'a>(names: &'a Names, events: &'a [NumberedEvent], place: usize) -> EventRef<'a>
    requires names { All (HasNames names.now) events.now }
    requires inside { place < length events.now }
    ensures { slice_get (map (named names.now) events.now) place ≡ Some (record {
      query = result.query;
      added = result.added;
      pair = record { from = result.from.now; to = result.to.now };
    }) }
{
    let event = events[place];
    EventRef {
        query: event.query,
        added: event.added,
        from: names.name_of(event.root),
        to: names.name_of(event.vertex),
    }
}

/// The event at this place.
fn owned_at(events: &[Event], place: usize) -> EventRef<'_>
    requires { place < length events.now }
    ensures { slice_get events.now place ≡ Some (record {
      query = result.query;
      added = result.added;
      pair = record { from = result.from.now; to = result.to.now };
    }) }
{
    let event = &events[place];
    EventRef {
        query: event.query,
        added: event.added,
        from: &event.pair.from,
        to: &event.pair.to,
    }
}
