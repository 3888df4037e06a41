//! Trees of best paths, kept so where edges come in and where their values rise.
//!
//! The best of a vertex and a state is the greatest number that all values of some path from the
//! root reach, where the path leads the automaton from its start to the state: how long the vertex
//! is reached at that state if nothing more comes. A tree is optimal where each of its nodes has
//! its best as its value, and hangs on a path with that value as its least. The contract for the
//! layers above: a tree that was optimal before an edge of its store was raised is so again after
//! [`tree_raise`], and [`relax`] makes one optimal from all tries that could raise something; what
//! isn't raised keeps its place and its stamp. A [`Search`] reports the places that changed, with
//! their values before and after. No search is needed where the raised edge leaves no place of the
//! tree with a step of the automaton ([`raise_elsewhere_keeps_optimal`]), and [`Search::expire`]
//! with the number of the store's `expire` keeps a tree optimal ([`expiry_keeps_optimal`]). But for
//! the expiry all this is of any `PathTree`: what its type keeps beside the tree stays as it is.
//!
//! A search takes the try of the greatest value first, as Dijkstra's algorithm takes the nearest
//! vertex, so that a node is raised once at most. It costs a step for each edge that leaves a node
//! which is new or raised, and a step in a heap for each try of a lower value than the one before.
//! The edges that leave a raised node cost nothing where none has a value above the one that the
//! node had before: so an edge into a vertex of many edges is refreshed in constant time. The raise
//! of an edge costs a look-up for each state from which it is tried; a caller that knows the states
//! of the nodes at a vertex hands these in.
//! Source: the trees of Pacaci, Bonifati and Özsu, SIGMOD 2020; that they keep the greatest value
//! is this project's own.
#![tactic(auto)]

mod calls;
mod laws;
mod offers;
mod search;
mod settling;
mod waiting;

pub use calls::{relax, tree_raise};
pub use laws::{
    bare_is_optimal, best_is_settled, expiry_keeps_optimal, no_rise_no_step, one_best,
    paths_are_ways, raise_elsewhere_keeps_optimal, raises_are_raises,
};
pub use offers::greatest_from;
pub use search::Search;
