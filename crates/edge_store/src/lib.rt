//! The edges of a window with their values, kept by the vertices that they join.
//!
//! An [`EdgeStore`] is a finite map from edges to values: the value of an edge is the time up to
//! which it stays. The contract for the layers above: each call answers and changes exactly what
//! the map says; both sides of the store agree, so that a walk over the edges that leave a vertex
//! and one over those that end at it give the same edges, each once. The calls by which a walk goes
//! count their steps, for whoever bounds them.
//!
//! A walk looks its vertex up once, and then costs a step in a slice or in a map for each edge. It
//! also answers a bound on the values of its edges without a step, so that a walk can be left out
//! which would find no value above another. The bound takes eight bytes for each vertex with edges.
//! At a vertex of many edges each 32 of them have a bound of their own, by which a walk can go on
//! to the next edge whose value may be above another.
//!
//! A raise and a removal cost a look-up at each of the two vertices: through a short list, and by
//! hash at a vertex of many edges. `expire` costs one comparison where no edge goes, and else a
//! step in a heap for each edge that goes and for each raise that a later one outdid. Memory that
//! most edges have left is given back.
#![tactic(auto)]

mod blocks;
mod edge;
mod edge_map;
mod edge_table;
mod owners;
mod row;
mod rows;
mod steps;
mod store;
mod walk;

pub use edge::{EdgeId, HalfEdge, In, Out, Raised};
pub use steps::Steps;
pub use store::EdgeStore;
pub use walk::{Ins, Outs};
