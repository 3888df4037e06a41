//! The threads of a run, which share one history: a worker for each stream, the engine in the
//! calling thread, and a worker for each session and for each reader. The objects of the caller
//! stand beside the engine, and are told of the events that it finds.
//!
//! The contract for the layer above is that of [`run_threads`]: whatever the threads do, there is
//! one history in the end, and all that is told is told of it (`specs/Runs`). Each stream's tuples
//! stand in it up to the stream's end, and nothing else does; where the streams have sinks for
//! their faulty lines, each was told on the sink of its own stream; what was written on the events
//! is a text of the history, or a prefix where a write failed or memory ran out; the objects were
//! told of the events of the blocks that were written whole, and of no other (`specs/Told`); each
//! reply to a session is the one over the entries up to its position; and so is each that stands on
//! the replies of a reader, which answer what the bytes of its asks give up to its end.
//!
//! A history with [`ENDLESS_CAP`](rpq_words::ENDLESS_CAP) forgets the entries that were answered.
//! Then the engine's thread keeps those that some query may still see ([`RunOutcome`]'s `window`),
//! and the engine is rebuilt over them from time to time, so that names and edges that nobody sees
//! leave the memory.
//!
//! The engine's loop is that of `engine_loop`. Here is where its entries come from, which are those
//! of the history, and what takes the steps that they bring: it writes the block of each entry and
//! tells the objects of its events behind it. The answers are published after each front, if there
//! are sessions. Where readers alone ask, they are published when one waits for them or no more
//! entries are there, and at most 4,096 entries late. All this is done by the engine's thread,
//! outside of any turn of the history. No clause says that the threads get on, or in which order.
#![tactic(auto)]

mod blocks;
mod entries;
mod feeding;
mod past;
mod room;
mod run;
mod serving;
mod task;
mod window;

pub use run::run_threads;
pub use task::{RunOutcome, Task};
