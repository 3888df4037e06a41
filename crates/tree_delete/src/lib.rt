//! Trees of best paths, kept so where an edge goes.
//!
//! The contract for the layers above: a tree that was optimal before an edge left its store is so
//! again after [`tree_remove`], and the nodes on whose path the edge didn't stand keep their place
//! and their stamp. The nodes on whose path it stood are cut: first those that hang by the edge,
//! then, along the edges that leave a node that is cut, its children. For each of them the best way
//! back from a node that stayed is sought among the edges that end at its vertex, or from the nodes
//! of the tree where these are fewer, and a search from these puts back what other paths reach. So a
//! removal costs what it cuts, however many other nodes there are: at most a step for each node that
//! is cut and for each edge that ends at it, two for each edge that leaves it, and none where the
//! edge stood on no path ([`steps_are_within_cut`], [`no_cut_no_step`]). [`tree_remove_with`] reports
//! the places of the nodes that were cut, with their values before and after, and no call is needed
//! where no node hangs by the edge ([`removal_elsewhere_keeps_optimal`]). What the type of the tree,
//! any `PathTree`, keeps beside it stays as it is.
#![tactic(auto)]

mod below;
mod calls;
mod entries;
mod entry;
mod from_nodes;
mod laws;

pub use calls::{tree_remove, tree_remove_with};
pub use laws::{
    no_cut_no_step, removal_elsewhere_keeps_optimal, removals_are_removals, steps_are_within_cut,
};
