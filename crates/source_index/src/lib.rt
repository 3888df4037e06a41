//! Which trees a change may touch: those with a node at a place, and those with a node whose time
//! has come.
//!
//! [`Holders`] is, for each vertex with a state, the set of the roots whose trees have a node
//! there; [`Dues`] keeps a number for each root and gives the roots back in the order of their
//! numbers.
//!
//! The places of a vertex lie together: one look-up by hash finds the vertex, a binary search the
//! state among its states, and [`Holders::states_at`] answers these as they lie. A vertex with one
//! state takes no memory beside its entry.
//!
//! The contract for the layer above: exact sets and exact numbers. Source: the inverted index of
//! Pacaci, Bonifati and Özsu, SIGMOD 2020.
#![tactic(auto)]

mod dues;
mod holders;
mod memory;
mod queue;
mod roots;
mod vertex;

pub use dues::Dues;
pub use holders::Holders;
