//! The index of a query: a store of edges, and for each source the tree of the best paths.
//!
//! A [`Forest`] takes changes of its store ([`Forest::apply`]) and keeps for each source, vertex
//! and state the best of the store: up to when some path from the source leads there
//! ([`Forest::kept`]), and by which path ([`Forest::path`]). The contract for the layer above: what
//! is kept is the best, for every number of workers ([`kept_is_best`]); what a change doesn't touch
//! keeps its place and its stamp; and the list of the ends that come or go with a change is exact.
//! A tree is reported as touched for a reason alone ([`touched_for_a_reason`]).
//! A change costs what it touches: a raise goes to the trees that have a node where the edge
//! leaves, a removal to those that have one where it leaves or where it ends, whichever are fewer,
//! and an expiry to those with a node whose time has come. Source: the Delta index of Pacaci,
//! Bonifati and Özsu, SIGMOD 2020; that a node has the greatest deadline is this project's own
//! rule.
#![tactic(auto)]

mod advancing;
mod candidates;
mod forest;
mod hanging;
mod index;
mod laws;
mod settling;
mod steps;

pub use forest::Forest;
pub use laws::{each_has_an_end, ends_are_one, kept_is_best, touched_for_a_reason};
pub use source_tree::{Change, EndChange, Outcome, Reached};
