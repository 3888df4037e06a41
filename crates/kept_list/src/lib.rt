//! Lists that only grow, and whose first items may leave the memory.
//!
//! Contracts see a [`KeptList`] as all its items and how many of the first are gone. So what is
//! known of the items stays known when they leave: the list has a snapshot of what it was then,
//! which takes no memory. An item costs the same time whether it's given up alone or with others:
//! nothing here takes time that grows with the list, but for the growth of a vector.
#![tactic(auto)]

mod list;

pub use list::KeptList;
