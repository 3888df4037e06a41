//! The ends that come or go with a change of a table of trees.
//!
//! The end of a root and a vertex is the greatest value of the root's nodes at the vertex with a
//! final state. An [`EndLog`] is told which nodes came with a change ([`EndLog::log_gained`]) or
//! went with one ([`EndLog::log_lost`]), and lists the ends that did. The contract for the layer
//! above: exactly these ends, each once.
//!
//! Where one state is final, each node with it is an end, and one pass over the nodes is all. Else
//! those with a final state are put in the order of their vertices and roots. An end came if all
//! nodes that the root now has at the vertex with final states are new, and it went if none is
//! left. The states at a vertex are asked once for all its roots, and each of them that is final
//! takes a look-up for each root: whatever other states the automaton has, they cost nothing.
#![tactic(auto)]

mod ends;
mod laws;
mod listing;
mod moved;
mod runs;
mod states;

pub use ends::EndLog;
pub use laws::logs_are_one;
