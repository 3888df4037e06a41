//! The tree of one source with what it says of its query: the end of each vertex.
//!
//! The end of a vertex is the greatest value of its nodes with a final state: up to when the pair
//! of source and vertex is an answer, if nothing more comes. A [`SourceTree`] takes each change of
//! the store of edges ([`SourceTree::take`]) and says where nodes came or went, and which ends did.
//! The contract for the layers above: a tree that was optimal before the change is so again, what
//! the change doesn't touch keeps its place and its stamp, and both lists are exact.
//!
//! A change costs what it costs the tree, and a pass over the places that it touched, whose values
//! before and after are known. Where one state is final, the ends that come or go follow from these
//! with no look-up. Where there are more, the places are put in the order of their vertices. The
//! places of a vertex tell alone that its end stays where final ones had a node before and have one
//! after, or neither. Else some other final state of the vertex may have a node, before and after:
//! the first that is found says that the end stays. The search for it goes over the states with
//! which some tree had a node there before the change, found by one look-up, or over the tree's own
//! nodes, whichever are fewer. Whatever other states the automaton has, they cost nothing. No ends
//! are kept. The lists of the last change are kept with their memory where this is for a few
//! places, so that a small change takes none for them.
//!
//! The list of all ends goes through the nodes once and sorts those with a final state.
#![tactic(auto)]

mod change;
mod ends;
mod product;
mod reached;
mod report;
mod room;
mod source;
mod steps;

pub use change::{Change, EndChange, Outcome, Reached};
pub use product::ProductGraph;
pub use source::SourceTree;
