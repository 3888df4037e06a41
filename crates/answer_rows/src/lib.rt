//! The answers of a query as sorted rows, and the events between two of them.
//!
//! [`Rows`] holds the pairs of vertices that answer a query, each with the time until which it
//! lasts: for each source a row of targets, both in order. Contracts see it as the list of its
//! answers, sorted by source and then target, each pair once; `specs/Answers` has the words that
//! they speak in, the end of a pair, the targets of a source and the sources of a vertex
//! ([`sources_have_ends`]). Copies share their sources in chunks (`shared_map`), so a copy takes a
//! step for each chunk, and a change after it makes one chunk and one row anew. [`changes`] and
//! [`changes_in`] give the events from old rows to new ones.
//! The contract for the layer above: rows are told by the ends of their pairs
//! ([`ends_tell_rows`]), each call says which ends it changes, and the events are the pairs lost
//! and then the pairs gained ([`events_are_changes`]), each in their order
//! ([`events_are_in_order`]).
#![tactic(auto)]

mod edits;
mod events;
mod laws;
mod row;
mod rows;
mod sources_of;
mod target;

pub use events::{changes, changes_in};
pub use laws::{
    ends_are_in_rows, ends_tell_rows, events_are_changes, events_are_in_order, sources_have_ends,
};
pub use rows::Rows;
pub use target::Target;
