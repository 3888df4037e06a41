//! The events of ends that come or go.
//!
//! A forest says by numbers which ends come or go with a change. [`events_between`] makes the
//! events of two changes, one after the other: a pair that had an end before both and has none
//! after them is lost, and the other way round it is gained. The contract for the layer above:
//! exactly these pairs, each once, the lost ones first, each sorted by their names.
//!
//! An event has the numbers of its pair, and the table of names says what they mean.
//! [`name_events`] makes events with copies of their names. [`EntryEvents`] holds the events of an
//! entry either way, and lends the names of each.
#![tactic(auto)]

mod entry_events;
mod events;
mod naming;
mod numbered_event;
mod pairs;

pub use entry_events::{EntryEvents, EventRef};
pub use events::events_between;
pub use naming::{name_events, name_lists};
pub use numbered_event::NumberedEvent;
pub use pairs::counts;
