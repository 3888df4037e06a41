//! All trees of a query in one table, by places: for each vertex with a state the roots that reach
//! it, each with its node.
//!
//! A [`PlaceTable`] has at each place the roots that stand there, each with the node of its tree: a
//! value, the place of the parent, and the label of the edge by which it hangs. So a search that
//! goes over the edges of a place once can take all roots along that gain by them.
//!
//! The contract for the layers above: a table is a list of places with their nodes, of which the
//! tree of each root can be read; each of these is a tree in the sense of `delta_tree`. A call says
//! of each root and each place what became of the node there. A put stamps a node with the number
//! of puts before it, which lives in contracts alone.
//!
//! A table shows the tree of one root at a time, and is a `PathTree` by that: what searches and
//! removals do in a single tree they do in the one that is shown, and the others stay.
//!
//! A look-up halves the states of a vertex, and then goes through the roots of a place while they
//! are few, and else costs a hash. [`PlaceTable::lift_all`] costs one look-up of the place, and one
//! of each root in it. A mark is one write, and a search forgets those before it at no cost.
//! An expiry costs one comparison where no node goes, and else a step in a heap for each node that
//! goes and for each one that was raised since it was last looked at. Places that no root reaches
//! any more are used again for others.
#![tactic(auto)]

mod entries;
mod expiring;
mod gain;
mod hint_row;
mod hints;
mod lifting;
mod link;
mod marks;
mod noted;
mod paths;
mod place;
mod places;
mod reading;
mod shown;
mod spot;
mod table;
mod taking;

pub use gain::{Gain, Lost};
pub use table::PlaceTable;
