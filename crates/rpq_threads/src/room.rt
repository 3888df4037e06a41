//! Room for what the workers give.

ghost use Rattle.std.specs.Prelude.{◌≡◌, ◌≤◌, ◌+◌, ◌++◌, ◌∷◌, false, length, map, IfOk};
ghost use Rattle.std.specs.List.{list_any};
ghost use Rattle.std.specs.Vec.{vec_len, vec_capacity};
ghost use Rattle.rpq_threads.specs.Served.{HasRoom, HasRoomFor, outcome_of};

use ask_text::Answered;
use live_asks::ReaderOutcome;
use rpq_base::Memory;
use rpq_io::{Sink, Source};
use std::alloc::Global;
use stream_history::Pass;
use stream_threads::{ReaderWork, SessionWork, StreamResult, StreamThread};
use stream_tuples::StreamEnd;

/// Lists that are long enough for a run, so that after the start nothing but the work needs memory.
#[derive(Drop)]
pub struct ResultRoom<S: Source, A: Source, K: Sink> {
    pub started: Vec<StreamThread<S, K>>,
    pub streamed: Vec<StreamResult<S, K>>,
    pub works: Vec<SessionWork>,
    pub reader_works: Vec<ReaderWork<A, K>>,
    pub gathered: ThreadResults<S, A, K>,
}

/// The passes of all threads, the sources, the ends and the sinks of faulty lines of the streams,
/// the answers of the sessions, and what the readers came to.
#[derive(Drop)]
pub struct ThreadResults<S, A, K> {
    pub passes: Vec<Pass>,
    pub sources: Vec<S>,
    pub ends: Vec<StreamEnd>,
    pub faults: Vec<Option<K>>,
    pub answers: Vec<Vec<Answered>>,
    pub readers: Vec<ReaderOutcome<A, K>>,
}

impl<S: Source + Drop, A: Source + Drop, K: Sink + Drop> ResultRoom<S, A, K> {
    /// Empty lists for so many streams, sessions and readers, and for the engine. The only error is
    /// [`Memory`].
    pub fn new(
        alloc: Global,
        streams: usize,
        sessions: usize,
        readers: usize,
    ) -> Result<ResultRoom<S, A, K>, Memory>
        requires few { streams + sessions + readers ≤ 192 }
        ensures { IfOk result (HasRoom streams sessions readers) }
    {
        let passes = 1 + streams + sessions + readers;
        Ok(ResultRoom {
            started: Vec::with_capacity(alloc, streams)?,
            streamed: Vec::with_capacity(alloc, streams)?,
            works: Vec::with_capacity(alloc, sessions)?,
            reader_works: Vec::with_capacity(alloc, readers)?,
            gathered: ThreadResults {
                passes: Vec::with_capacity(alloc, passes)?,
                sources: Vec::with_capacity(alloc, streams)?,
                ends: Vec::with_capacity(alloc, streams)?,
                faults: Vec::with_capacity(alloc, streams)?,
                answers: Vec::with_capacity(alloc, sessions)?,
                readers: Vec::with_capacity(alloc, readers)?,
            },
        })
    }
}

/// Puts the engine's pass and what the workers gave into the lists, and answers whether memory ran
/// out for one of the sessions.
pub fn put_all<S: Source + Drop, A: Source + Drop, K: Drop>(
    engine: Pass,
    streamed: Vec<StreamResult<S, K>>,
    replied: Vec<SessionWork>,
    served: Vec<ReaderWork<A, K>>,
    gathered: &mut ThreadResults<S, A, K>,
) -> bool
    requires room { HasRoomFor (vec_len streamed) (vec_len replied) (vec_len served) gathered.old }
    ensures passes { gathered.new.passes.items ≡ engine ∷ (map (λ d. d.pass) streamed.items
        ++ (map (λ r. r.pass) replied.items ++ map (λ r. r.pass) served.items)) }
    ensures sources { gathered.new.sources.items ≡ map (λ d. d.source) streamed.items }
    ensures ends { gathered.new.ends.items ≡ map (λ d. d.end) streamed.items }
    ensures faults { gathered.new.faults.items ≡ map (λ d. d.faults) streamed.items }
    ensures answers { gathered.new.answers.items ≡ map (λ r. r.answers) replied.items }
    ensures readers { gathered.new.readers.items ≡ map outcome_of served.items }
    ensures memory { result ≡ list_any (λ r. r.memory) replied.items }
{
    gathered.passes.push_reserved(engine);
    put_streamed(
        streamed,
        &mut gathered.passes,
        &mut gathered.sources,
        &mut gathered.ends,
        &mut gathered.faults,
    );
    let short_of_memory = put_replied(replied, &mut gathered.passes, &mut gathered.answers);
    put_served(served, &mut gathered.passes, &mut gathered.readers);
    short_of_memory
}

/// Puts what the workers of the streams gave into lists.
fn put_streamed<S: Source + Drop, K: Drop>(
    streamed: Vec<StreamResult<S, K>>,
    passes: &mut Vec<Pass>,
    sources: &mut Vec<S>,
    ends: &mut Vec<StreamEnd>,
    faults: &mut Vec<Option<K>>,
)
    requires passes { vec_len passes.old + vec_len streamed ≤ vec_capacity passes.old }
    requires sources { vec_len sources.old + vec_len streamed ≤ vec_capacity sources.old }
    requires ends { vec_len ends.old + vec_len streamed ≤ vec_capacity ends.old }
    requires faults { vec_len faults.old + vec_len streamed ≤ vec_capacity faults.old }
    ensures passes { passes.new.items ≡ passes.old.items ++ map (λ d. d.pass) streamed.items }
    ensures sources { sources.new.items
        ≡ sources.old.items ++ map (λ d. d.source) streamed.items }
    ensures ends { ends.new.items ≡ ends.old.items ++ map (λ d. d.end) streamed.items }
    ensures faults { faults.new.items ≡ faults.old.items ++ map (λ d. d.faults) streamed.items }
    ensures many { vec_len passes.new ≡ vec_len passes.old + vec_len streamed }
    ensures room { vec_capacity passes.new ≡ vec_capacity passes.old }
{
    for one in streamed {
        let StreamResult {
            pass,
            source,
            end,
            faults: sink,
        } = one;
        passes.push_reserved(pass);
        sources.push_reserved(source);
        ends.push_reserved(end);
        faults.push_reserved(sink);
    }
}

/// Puts what the workers of the sessions gave into lists, and answers whether memory ran out for
/// one of them.
fn put_replied(
    replied: Vec<SessionWork>,
    passes: &mut Vec<Pass>,
    answers: &mut Vec<Vec<Answered>>,
) -> bool
    requires passes { vec_len passes.old + vec_len replied ≤ vec_capacity passes.old }
    requires answers { vec_len answers.old + vec_len replied ≤ vec_capacity answers.old }
    ensures passes { passes.new.items ≡ passes.old.items ++ map (λ r. r.pass) replied.items }
    ensures answers { answers.new.items ≡ answers.old.items ++ map (λ r. r.answers) replied.items }
    ensures memory { result ≡ list_any (λ r. r.memory) replied.items }
    ensures many { vec_len passes.new ≡ vec_len passes.old + vec_len replied }
    ensures room { vec_capacity passes.new ≡ vec_capacity passes.old }
{
    let mut short_of_memory = false;
    for one in replied {
        let SessionWork {
            number: _,
            pass,
            asks: _,
            answers: own,
            memory,
            told: _,
        } = one;
        passes.push_reserved(pass);
        answers.push_reserved(own);
        short_of_memory |= memory;
    }
    short_of_memory
}

/// Puts what the workers of the readers gave into lists.
fn put_served<A: Source + Drop, K: Drop>(
    served: Vec<ReaderWork<A, K>>,
    passes: &mut Vec<Pass>,
    readers: &mut Vec<ReaderOutcome<A, K>>,
)
    requires passes { vec_len passes.old + vec_len served ≤ vec_capacity passes.old }
    requires readers { vec_len readers.old + vec_len served ≤ vec_capacity readers.old }
    ensures passes { passes.new.items ≡ passes.old.items ++ map (λ r. r.pass) served.items }
    ensures readers { readers.new.items ≡ readers.old.items ++ map outcome_of served.items }
{
    for one in served {
        let ReaderWork {
            pass,
            reader,
            replies,
            end,
        } = one;
        passes.push_reserved(pass);
        readers.push_reserved(ReaderOutcome {
            end,
            source: reader.into_source(),
            replies,
        });
    }
}
