//! The engine: some queries over a history that grows, and what each entry changes.
//!
//! An [`Engine`] stands for a history (`specs/Engine`): a new one for the empty history, and one
//! that was fed an entry for the history with this entry behind. [`Engine::feed`] answers the
//! events that an entry brings, [`Engine::feed_front`] those of some entries at once,
//! [`Engine::feed_numbered`] the same by the numbers of names, [`Engine::view`] all answers with
//! their ends, and [`Engine::best_path`] a path that shows one of them. The layer above rests on
//! that contract alone, and never on how the answers are found.
//! Where memory runs out, the engine is spent: it answers no entry until it is rebuilt.
//! [`Engine::rebuild`] evaluates the entries of a history from nothing, whatever the engine stood
//! for before.
//!
//! Of the history itself an engine keeps nothing but what its queries see. So it stands for every
//! history that they see alike ([`stands_for_alike`]), and counts no more than the entries that it
//! was fed: at which position of a history it stands its caller knows.
//!
//! Each query has an index of its own (`query_index`): an engine holds one for each query, gives
//! each the entries one after another, and puts together what they answer.
//!
//! The label of an entry's edge is looked up once, in a table of the labels of all queries: its row
//! has for each query the number of the label in the query's automaton.
//!
//! The queries depend on each other by the names alone. So a front first gives numbers to all names
//! that its entries bring, and then each query takes the whole front before the next query does, or
//! beside it by another worker. An index then stays in its processor's cache for a whole front, and
//! threads are started once a front and not once an entry. The queries are dealt to the workers by
//! what each took of the front before, the dearest first. In the end the events are put together
//! entry by entry. Until then they are numbers alone: a name is copied only where events are asked
//! for by names.
#![tactic(auto)]

mod ends;
mod engine;
mod fault;
mod front;
mod indexes;
mod labels;
mod laws;
mod parts;
mod rebuilding;
mod refreshing;
mod sharing;
mod showing;

pub use engine::Engine;
pub use fault::FeedFault;
pub use laws::{nodes_stay, stands_for_alike};
