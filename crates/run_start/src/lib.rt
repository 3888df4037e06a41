//! How a run begins, or why it doesn't.
//!
//! The contract for the layer above is that of [`begin`]: the queries file is read whole and
//! understood, then the joins file, and then the asks file; then the saved window with which the run
//! begins, the streams in their order and what the readers beside the run ask are opened, and the
//! files to be written last, each of them once. [`begin`] hands over what a run needs of all that
//! (`specs/Ready`), or says which of them is at fault (`specs/Start`), with the source of which a
//! read failed. Before it, [`settings_of`] says which words begin a run. A file that is read whole
//! is held in memory until it is understood; nothing is read of a stream, nor of what a reader asks.
#![tactic(auto)]

mod asking;
mod joins;
mod laws;
mod limits;
mod queries;
mod ready;
mod refusal;
mod sessions;
mod sinks;
mod streams;
mod whole;
mod words;

pub use laws::{files_are_in_order, saved_comes_first};
pub use ready::{RunPlan, StreamsPlan, Work, begin};
pub use refusal::Refusal;
pub use sinks::OwnSinks;
pub use streams::Readers;
pub use words::settings_of;
