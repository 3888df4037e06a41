//! The index of one query: what is kept of a history for it, and what each entry changes.
//!
//! An [`QueryIndex`] is that of its query over a history (`specs/Index`): a new one over the empty
//! history, and one that was given an entry over the history with this entry behind.
//! [`QueryIndex::answer`] answers the events that an entry brings, [`QueryIndex::rows`] all answers
//! with their ends, and [`QueryIndex::best_path`] a path that shows one of them. The engine above
//! holds one for each query, and rests on that contract alone: how the answers are found is of no
//! concern to it, nor other queries to an index. All take vertices by the numbers of the same
//! names.
//!
//! It is the clock of the query's window, and a forest of best paths over the edges that the window
//! holds. An entry first takes away what the clock reaches, and then raises or removes its edge; the
//! ends that both change are the events. A query that takes simple paths is taken only where its
//! language has the property of containment, and then its answers are those of all paths, without
//! the pairs of one vertex.
//!
//! For readers it also keeps the rows that it showed last, and the roots whose trees were touched
//! since then. The next look makes the rows of these roots anew, and shares all others with the one
//! before. The contract says that a row whose root isn't stale is what the forest shows. Until the
//! first look once a name has a number, all roots are stale and nothing is kept.
#![tactic(auto)]

mod answering;
mod automaton;
mod index;
mod laws;
mod paths;
mod root_list;
mod showing;
mod stale;
mod targets;
mod vertices;

pub use answering::Crew;
pub use index::QueryIndex;
pub use laws::{bare_forests_reach_nothing, more_names_keep_indexes};
pub use vertices::Vertices;
