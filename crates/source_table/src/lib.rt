//! The trees of many sources, found by their roots, and changed side by side.
//!
//! The contract for the layer above: each root has one tree at most, and
//! [`SourceTable::change_each`] makes each of the chosen trees take a change, by so many workers,
//! and leaves the others as they are, whatever the number of workers. A change by one worker takes
//! no memory for its own list and its searches once the table has that of the changes before.
#![tactic(auto)]

mod part;
mod places;
mod table;

pub use table::SourceTable;
