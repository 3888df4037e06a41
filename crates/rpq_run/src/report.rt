//! What a run answers.

use ask_text::Answered;
use kept_list::KeptList;
use live_asks::ReaderOutcome;
use rpq_base::Entry;
use rpq_io::Files;
use rpq_text::StartFault;
use standing::Standing;
use stream_tuples::StreamEnd;

/// What a run answers.
///
/// | Status | Where |
/// |---|---|
/// | 0 | every stream was read to its end and every reader served, all tuples were generated, or the queries were checked |
/// | 1 | the words have no settings |
/// | 2 | the queries file has a fault |
/// | 3 | the asks file has a fault |
/// | 4 | a line of a stream is faulty or too long, and isn't told apart |
/// | 5 | a file to be read couldn't be opened or read; of a reader's asks, the opening alone |
/// | 6 | a write of the events, the replies, the saved window or a stream's faulty lines failed, or a file to be written couldn't be opened |
/// | 7 | the history is full, or a file other than a reader's asks has too many bytes |
/// | 8 | memory ran out |
/// | 9 | the asks of a reader couldn't be read to their end, or its replies not be written |
/// | 10 | the joins file has a fault |
///
/// After the start it is the first of 8, 6, 7, 5, 4 and 9 that arose, else 0. The numbers have
/// names in [`status`](crate::status).
#[derive(Drop)]
pub struct Report<F: Files> {
    pub status: u8,
    /// Why the run didn't begin, if it didn't.
    pub start: Option<StartFault>,
    /// The entries that were taken, in order. Where the run goes on as long as its streams do, the
    /// first ones may have left the memory.
    pub history: KeptList<Entry>,
    /// How each stream ended, in order; generated tuples are one stream. Where the run didn't
    /// begin, or is a check, there is none.
    pub streams: Vec<StreamEnd>,
    /// The source of each stream, as the run leaves it; where a read of the queries file, the joins
    /// file or the asks file failed, that file's source.
    pub sources: Vec<F::Source>,
    /// The sink of each stream's faulty lines, in the order of the streams and as the run leaves
    /// it, where they are told apart; else none for each stream. Where the run didn't begin, is a
    /// check or generates tuples, this is empty.
    pub faults: Vec<Option<F::Sink>>,
    /// The source of the saved window with which the run began, if there is one, as the run leaves
    /// it.
    pub from: Option<F::Source>,
    /// The asks of each session that were answered, in order.
    pub sessions: Vec<Vec<Answered>>,
    /// The readers that asked beside the run, in order: how each ended, and its source and its
    /// sink, as the run leaves them.
    pub readers: Vec<ReaderOutcome<F::Source, F::Sink>>,
    /// The sink of the replies, if there is one, as the run leaves it.
    pub replies: Option<F::Sink>,
    /// The sink of the saved window, if there is one, as the run leaves it.
    pub save: Option<F::Sink>,
    /// The objects that left, in the order in which they did.
    pub left: Vec<Box<dyn Standing>>,
}
