//! The top call: from the words and the files to the texts of the events and the replies.
//!
//! The contract for the layer above is that of [`run`]: over streams there is one history, in which
//! each stream's tuples are those of its bytes by the stream's end; what is written on the events
//! is the text of that history, and what the sessions and the readers beside the run are told are
//! the answers at positions of it, or prefixes of these with their cause; over generated tuples the
//! history is theirs, and what is written is its summary; where it checks queries it writes what
//! there is to say of each; or it writes nothing and says why it didn't begin; and what went wrong
//! is told on the errors. The objects of the caller are told of the history's events, those of a
//! block once it is written whole, and come back. Where the words say so, queries may take edges
//! backwards: then an entry's events are the difference that it and its inverse bring together. Or
//! a path is written behind each gained pair that shows it. Or there are joins over the queries,
//! and the changes of their bindings are written at the end of each block. [`headline`] says the
//! same of a run over streams that is done, in one piece, and [`any_status`] of one that ends with
//! any status.
//!
//! A faulty line ends its stream, or it is told on a sink of its stream and passed over, where the
//! words say so.
#![tactic(auto)]

mod check;
mod continuing;
mod errors;
mod fault;
mod generated;
mod laws;
mod objects;
mod reader_ends;
mod replies;
mod report;
mod room;
mod saving;
mod sources;
mod streams;
mod top;
mod word_texts;

pub use ask_text::{Answered, Ask};
pub use continuing::continued;
pub use entry_steps::{
    fronts_hold_answers, fronts_hold_bindings, steps_have_join_events, steps_have_the_events,
};
pub use history_model::Why;
pub use join_file::{JoinFileFault, JoinFileFaultKind};
pub use laws::{any_status, faultless_is_done, headline, small_run_can_be_done};
pub use live_asks::{ReaderEnd, ReaderOutcome};
pub use report::Report;
pub use rpq_text::{
    SinkName, StartFault, Which, every_history_has_a_text, line_examples, one_verdict_text, status,
    without_paths_one_text,
};
pub use stream_tuples::{StreamEnd, faultless_is_alike, stream_by_parts, told_by_lines};
pub use top::run;
