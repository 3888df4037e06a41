//! What an engine is fed of the entries of a history, and their events.
//!
//! Where the queries take edges forwards alone, an engine is fed each entry as it stands. Where
//! they may take edges backwards, it is fed each entry and then its inverse, and the events of both
//! are netted, so that an entry brings one difference. [`feed_entries`] does either, so that the
//! layers above speak of the entries of the history alone. What it gives is [`EventLists`]: events
//! by numbers in the one case, and with names of their own in the other, since they are netted by
//! their names.
#![tactic(auto)]

mod event_lists;
mod feeding;

pub use event_lists::EventLists;
pub use feeding::feed_entries;
