//! What the threads of a run are given, and what they give.

use ask_text::{Answered, Session};
use entry_steps::Options;
use history_model::Why;
use kept_list::KeptList;
use live_asks::{AskReader, ReaderOutcome};
use query_file::Compiled;
use rpq_base::{Entry, Workers};
use rpq_io::{LineReader, Source};
use rpq_words::ENDLESS_CAP;
use standing::Circle;
use stream_tuples::StreamEnd;

/// What the threads of a run are given: the sources of streams and those of asks may be of two
/// types.
#[derive(Drop)]
pub struct Task<S: Source, A: Source, K> {
    /// The queries, in the order of their file.
    pub queries: Vec<Compiled>,
    /// How the queries are evaluated, and what is told of them.
    pub options: Options,
    /// How many workers the engine has.
    pub workers: Workers,
    /// How many entries the history may have: 1 to 2,000,000, or [`ENDLESS_CAP`] for a run that
    /// goes on as long as its streams do.
    pub limit: u64,
    /// The streams, the first of which has the number 1.
    pub readers: Vec<LineReader<S>>,
    /// Where the faulty lines of each stream go, in the order of the streams: one for each, or
    /// none, and then a faulty line ends its stream.
    pub faults: Vec<K>,
    /// What is asked while the streams are read.
    pub sessions: Vec<Session>,
    /// Those who ask beside the streams, each with its replies. The first has the number 1.
    pub ask_readers: Vec<AskReader<A, K>>,
}

/// What the threads of a run give.
#[derive(Drop)]
pub struct RunOutcome<S, A, K, O> {
    /// The entries, in the order in which they were taken. Those that a history forgets are gone.
    pub history: KeptList<Entry>,
    /// What was kept in the place of a history that forgets: what a later run needs of it is what
    /// it needs of these entries.
    pub window: Option<Vec<Entry>>,
    /// How each stream ended.
    pub ends: Vec<StreamEnd>,
    /// The source of each stream.
    pub sources: Vec<S>,
    /// The sink of each stream's faulty lines, if it has one.
    pub faults: Vec<Option<K>>,
    /// For each session its answered asks.
    pub sessions: Vec<Vec<Answered>>,
    /// How each reader ended, with its source and its replies.
    pub readers: Vec<ReaderOutcome<A, K>>,
    /// Why the history was shut, if it was.
    pub why: Option<Why>,
    /// Whether some session has asks that weren't answered, for want of memory.
    pub short_of_memory: bool,
    /// The objects that were told of the events, and those of them that left.
    pub circle: Circle<O>,
}
