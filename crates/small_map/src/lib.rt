//! A map that is scanned while it has few entries, and hashed where it has many.
//!
//! Most maps of a large structure of small ones have a handful of entries. A [`SmallMap`] keeps all
//! entries in one list: up to 32 are found by going through it, which costs about what a hash does
//! at the most, takes one piece of memory alone, and leaves a change nothing else to keep. With the
//! next one the place of each key is kept by its hash as well, until 16 are left.
//!
//! The contract for the layers above: a map is the list of its entries, in which each key stands
//! once. A caller finds the place of a key once, and reads or changes the entry there; so it can
//! keep other lists in step with the map.
#![tactic(auto)]

mod map;
mod places;
mod room;

pub use map::SmallMap;
pub use room::{give_back, make_room};
