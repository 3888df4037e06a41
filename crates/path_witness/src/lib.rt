//! Paths that show an answer: why a pair is one, and until when.
//!
//! A path of entries in the window shows that a pair is an answer. Of all such paths, the one whose
//! least deadline is greatest shows how long the answer lasts, and each answer of a query that is
//! accepted has such a path ([`answers_are_shown`]). This layer has what a run needs to write these
//! paths behind the pairs that it gains.
//!
//! [`Marks`] tells, for each edge and each of some queries, the live entry that lasts longest, over
//! a history that grows by one entry at a time. One mark for each edge and query is enough
//! ([`one_mark_is_enough`]), and edges that no window holds are forgotten. [`Marks::show`] takes a
//! best path of edges, as an engine has it for an answer, and tells the entries that show the
//! answer: their positions, and the end of the answer, which is the least of their deadlines.
//!
//! [`cut_loops`] takes the loops out of a path, as a query for simple paths wants it. Where the
//! query's language has the property of containment, what is left has a word of it, and lasts as
//! long ([`cut_keeps`]).
//!
//! The crate `plain_checks` decides from scratch whether what is shown is such a path.
//! [`shown_example`] has two paths, one of which shows an answer.
#![tactic(auto)]

mod edge_key;
mod edge_marks;
mod laws;
mod loops;
mod mark;
mod marks;
mod path_entries;
mod shown;

pub use laws::{answers_are_shown, cut_keeps, one_mark_is_enough, shown_example};
pub use loops::cut_loops;
pub use mark::Mark;
pub use marks::Marks;
pub use shown::ShownPath;
