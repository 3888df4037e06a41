//! Lists that live in contracts alone.
//!
//! A [`GhostList`] takes no memory, whatever its length, and no code can read it. Contracts see it
//! as the list of all that was pushed. So a contract can speak of a whole past of which a program
//! keeps nothing, or only the end. An empty list and a push cost nothing that grows with the list.
#![tactic(auto)]

mod list;

pub use list::GhostList;
