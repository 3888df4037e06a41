//! The search for best paths in all trees of a table at once, after the raise of one edge.
//!
//! A table has the trees of a [`Share`] of the roots, by places: at each vertex with a state of
//! the automaton the roots that reach it. So several tables, each with a share of its own, can be
//! changed side by side by several workers. Where an edge comes in, or its value rises, roots that
//! stand at the vertex that it leaves may get a better path over it, and what they get at a place
//! they hand on along the same edges. The contract for the layer above: all trees of the share that
//! were optimal before the raise are so again after [`WideSearch::raise`], roots of other shares
//! get no nodes, no value falls, nodes that don't rise keep their parents and stamps, and
//! [`WideSearch::lifts`] tells what rose.
//!
//! There is one search for each state with which some root stands at the vertex: the vertex
//! itself does so with the state 0, where it is one of the share's roots. The first gains are
//! these roots, each with the number up to which it can gain; from there on a batch of gains
//! waits for each edge that leaves a place where roots rose, and the batch of the widest path
//! is taken first. So each place is settled once, for all roots: what a batch of the same width
//! or less could bring there later is there already. A root that didn't rise at a place had as
//! much there before, and since no edge could raise anything then, it has at the next places
//! what the batch could bring; so a batch has those roots alone that rose. While the edge is
//! taken on at one state, it counts with its value before at the states that are still to be
//! searched.
//!
//! A search looks each edge up once that leaves a place where some root rose, however many
//! roots did, and passes over edges that are no wider than what each of them had there before.
//! Source: that the widest path is taken first, as Dijkstra's algorithm takes the nearest
//! vertex, is textbook; that one search serves all roots is this project's own.
#![tactic(auto)]

mod batch;
mod graph;
mod lifts;
mod offers;
mod raise;
mod room;
mod search;
mod settling;
mod share;
mod waiting;

pub use lifts::Lift;
pub use raise::{Raised, WideSearch};
pub use share::Share;
