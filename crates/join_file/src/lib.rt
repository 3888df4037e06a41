//! Joins of path queries, as a joins file gives them.
//!
//! A join has atoms, each a query with a variable or a vertex at either end. [`read_joins`] reads
//! the joins of a file, or tells its first fault, exactly as `specs/JoinsFile` says. A second view
//! of the format, by the parts of a line and of a file, is in the laws ([`join_line_by_parts`],
//! [`joins_by_parts`]). Each join of a file is over the queries and has a variable
//! ([`joins_are_sound`]). The layer above tells the bindings of joins.
#![tactic(auto)]

mod atoms;
mod data;
mod fault;
mod laws;
mod line;
mod read;

pub use data::{JoinAtom, JoinDef, Term};
pub use fault::{JoinFileFault, JoinFileFaultKind};
pub use laws::{join_examples, join_line_by_parts, joins_are_sound, joins_by_parts};
pub use read::read_joins;
