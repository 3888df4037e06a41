//! The threads of a run beside the engine and its workers: one for each stream, one for each
//! session and one for each reader that asks beside the run.
//!
//! The contract for the layer above is that of seven calls. [`stream_inputs`] gives each stream the
//! sink of its faulty lines, if there are sinks. [`start_streams`] and [`join_streams`] run the
//! workers of the streams: what each appends to the history are the tuples of its stream's bytes by
//! the end that it tells, on its sink stands what is told of the faulty lines by that end, and the
//! end has its cause (`specs/Streams`). [`beside_sessions`] runs the workers of the sessions, which
//! [`session_works`] begins, beside other work: each ask, in order, gets the reply over the entries
//! up to a published position, positions never fall, a wait is told as ended only if no further
//! position was to come, and what the gate was told is given back (`specs/Sessions`).
//! [`beside_readers`] runs those of the readers, which [`reader_works`] begins, in the same way:
//! there are answers to the items of each reader's asks by its end, each reply is as a session's,
//! the text of the answers stands on its sink, and the end has its cause (`specs/Live`). All of it
//! is said of passes of the history, so it is known of the history as soon as that is finished.
//!
//! A stream's worker reads no line while the history has no room for it, and takes what it read at
//! once: it appends a tuple, and tells a fault if it has a sink for it. So what a stream holds back
//! stays in its source, and a sink that takes nothing holds up its own stream alone. A reader's
//! worker answers a line before it reads the next one, and keeps no answer. It writes while it has
//! no turn, so nobody but the run's end waits for a sink that takes nothing.
//!
//! If no thread can be made for a stream, its work is done by the thread that started it. If none
//! can be made for a session or a reader, its work is done where the others are done, or after the
//! other work. A session or a reader that waits sleeps, and only if its position isn't published
//! and one may come. Once the history is shut, a reader ends at its next line, as a stream does.
//! That a thread gets on, no clause says.
#![tactic(auto)]

mod looking;
mod reader_threads;
mod reader_work;
mod reader_worker;
mod run_parts;
mod session_threads;
mod session_work;
mod session_worker;
mod sharing;
mod stream_input;
mod stream_thread;
mod stream_worker;

pub use reader_threads::beside_readers;
pub use reader_work::{ReaderWork, reader_works};
pub use reader_worker::serve_reader;
pub use run_parts::RunParts;
pub use session_threads::beside_sessions;
pub use session_work::{SessionWork, session_works};
pub use session_worker::serve_session;
pub use stream_input::{StreamInput, stream_inputs};
pub use stream_thread::{StreamPromise, StreamThread, join_streams, start_streams};
pub use stream_worker::{StreamResult, serve_stream};
