//! The values that every layer of rpq speaks of: names, labels, edges, tuples, entries, pairs and
//! events.
//!
//! A tuple is what a stream says at a time; an entry is a tuple in a history; a pair is an answer;
//! an event is an answer gained or lost. Contracts see a [`Name`] as its bytes, a [`Word`] as its
//! labels, and every other type as the record of its fields. Names are compared byte by byte, and
//! all else field by field; names, labels and pairs have an order.
//! Each value is copied by [`TryClone::copy`], which gives an equal one, or answers that memory ran
//! out. Beside them stand what all layers share: the order of bytes, out of memory, a hash with
//! random keys, and numbers of workers.
#![tactic(auto)]

mod bytes_order;
mod data;
mod keyed_hash;
mod laws;
mod memory;
mod name;
mod word;
mod workers;

pub use bytes_order::bytes_compared;
pub use data::{Act, Edge, Entry, Event, Label, MAX_TIME, Pair, Tuple};
pub use keyed_hash::KeyedHash;
pub use laws::{equality_is_exact, greatest_time, orders_are_named, same_is_equal};
pub use memory::{Memory, TryClone, copy_all, stored_in_all};
pub use name::{MAX_NAME, Name, NameFault};
pub use word::Word;
pub use workers::{MAX_WORKERS, Workers};
