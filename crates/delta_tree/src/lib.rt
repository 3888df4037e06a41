//! The tree of one source: which vertices it reaches with which states, and up to when.
//!
//! A [`Tree`] has a root, the source's vertex with the start of an automaton, and below it a node
//! for each vertex and state that some path from the root leads to. A node keeps a value, the node
//! below which it hangs, the edge by which it does, and a stamp. The layers above choose the
//! values: that of a node is the greatest time up to which all edges of some path to it stay.
//! Source: the spanning trees of the Delta index of Pacaci, Bonifati and Özsu, SIGMOD 2020, whose
//! nodes have a timestamp; that the greatest of these times is kept is this project's own rule.
//!
//! The contract for the layers above: a node has at most the value of its parent and comes after
//! it, so that the parents never form a ring and each node has one path from the root; each call
//! answers and changes exactly what the map from vertices and states to nodes says. A put stamps a
//! node with the number of puts before it, so that a node made anew is told from one that stood.
//! Searches and removals need a [`PathTree`] alone, which a tree is, and which a type may be that
//! keeps the trees of many roots.
//!
//! A look-up and a put go through the places of the nodes while these are few, and else cost a
//! hash; the places lie together with the values alone, and [`Tree::raise`] judges and takes a step
//! by one look-up. An expiry costs one comparison where no node goes, and else a step in a heap for
//! each node that goes and for each one that was raised or cut since it was last looked at; by
//! [`Tree::least`] a caller knows before when none goes, and [`Tree::cut_due`] answers those that
//! went. [`Tree::cut_nodes`] costs a look-up for each node that it takes out, of which its caller
//! knows that they are all below an edge; by [`Tree::hangs_below`] these are found from one another,
//! as `tree_delete` does along the edges that leave them. [`Tree::cut_below`] asks for no such
//! knowledge, and goes over all nodes. A tree that loses most of its nodes gives their memory back.
#![tactic(auto)]

mod cut;
mod laws;
mod node;
mod node_map;
mod nodes;
mod own_tree;
mod path_tree;
mod stamp;
mod tree;

pub use laws::{changes_of_trees, order_of_trees, paths_of_trees};
pub use node::{NodeId, Pending, Shift, Try};
pub use path_tree::PathTree;
pub use stamp::{PutCount, Stamp};
pub use tree::Tree;
