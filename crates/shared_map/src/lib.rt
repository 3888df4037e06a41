//! An ordered map whose copies share all but what changes.
//!
//! A [`SharedMap`] holds its entries in chunks, each a sorted run of at most 128 entries behind an
//! `Arc`, the chunks in order. A copy copies the list of chunks alone, and a change after it makes
//! one chunk anew. So a copy takes a step for each chunk, a look-up the logarithm of the number of
//! entries, and a change the same, a chunk, and a step for each chunk where one comes or goes. A
//! full chunk is split into halves and an emptied one goes away; short ones aren't joined.
//! The contract for the layers above: a map is the sorted list of its entries, and a change that
//! lacks memory leaves it as it was.
#![tactic(auto)]

mod chunk;
mod list;
mod map;

pub use chunk::Chunk;
pub use map::SharedMap;
