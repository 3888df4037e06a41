//! A run over generated tuples, which tries a machine without any file.
//!
//! The contract for the layer above is that of [`generate`]: the history has the first so many
//! tuples of `tuple_generator`, as many as are wanted and as it may have, or fewer where memory ran
//! out; the objects of the caller are told of the events of its entries, as the queries' answers
//! change; and the summary counts the entries, the events and the answers, and has what each object
//! says (`specs/Generates`, `specs/Summary`). A history has one summary of what is said
//! ([`one_summary`]).
//!
//! The loop is that of `engine_loop`: here is where its entries come from, and what takes their
//! steps. The engine takes up to 256 entries at once, in the calling thread. Memory is taken for
//! the history and the engine, as for a stream of that length, and for one front of events. Where
//! it runs out for the first time while the engine is fed, the engine is rebuilt.
#![tactic(auto)]

mod counts;
mod entries;
mod generating;
mod generation;
mod laws;
mod summary;
mod totals;

pub use generating::generate;
pub use generation::{Generation, GenerationResult};
pub use laws::{one_summary, said_example, summary_example};
