//! All threads of a run.

ghost use Rattle.std.specs.Prelude.{◌≡◌, ◌∷◌, ◌++◌, ◌+◌, ℕ, map};
ghost use Rattle.std.specs.List.{list_any};
ghost use Rattle.std.specs.Vec.{vec_len};
ghost use Rattle.standing.specs.Circles.{as_seen};
ghost use Rattle.stream_threads.specs.Live.{HaveNewPasses, HaveServed};
ghost use Rattle.stream_threads.specs.Readers.{AreNewWorks, HaveReplied};
ghost use Rattle.rpq_threads.specs.Fed.{IsAtStart, HasFed};
ghost use Rattle.rpq_threads.specs.Served.{HasRoomFor, IsWork, IsServed, given_by, gave_by};
ghost use Rattle.rpq_threads.specs.Served.{AreReady, outcome_of};

use crate::feeding::{EngineWork, feed_all};
use crate::room::{ResultRoom, ThreadResults, put_all};
use ask_text::Session;
use entry_steps::Evaluator;
use history_model::Why;
use live_asks::AskReader;
use rpq_base::Entry;
use rpq_io::{Gate, Sink, Source};
use standing::{Circle, Standing};
use std::sync::Wait;
use std::thread::{Scope, Threads, scope, scope_env};
use stream_history::Pass;
use stream_threads::{
    ReaderWork, RunParts, SessionWork, StreamInput, StreamResult, beside_readers, beside_sessions,
    join_streams, reader_works, session_works, start_streams,
};

/// What the threads of a run work with.
#[derive(Drop)]
pub struct Job<S: Source, A: Source, K: Sink> {
    pub passes: Vec<Pass>,
    pub evaluator: Evaluator,
    pub inputs: Vec<StreamInput<S, K>>,
    pub sessions: Vec<Session>,
    pub ask_readers: Vec<AskReader<A, K>>,
    pub room: ResultRoom<S, A, K>,
}

/// What the threads of a run gave back.
#[derive(Drop)]
pub struct JobResult<'a, S, A, K, O> {
    pub gathered: ThreadResults<S, A, K>,
    pub short_of_memory: bool,
    pub why: Option<Why>,
    pub window: Option<Vec<Entry>>,
    pub events: &'a mut K,
    pub circle: Circle<O>,
}

/// Starts the workers, runs the engine and waits for the workers.
pub fn serve<'a, S, A, K, O: Standing, G: Gate, R: Threads + Wait + Sync>(
    shared: &RunParts<'_, R, G>,
    job: Job<S, A, K>,
    events: &'a mut K,
    circle: Circle<O>,
) -> JobResult<'a, S, A, K, O>
where
    S: Source + Send + Drop,
    A: Source + Send + Drop,
    K: Sink + Send + Drop,
    requires { IsWork S.left S.faults A.left A.faults K.written K.faults
        shared.now.history.now shared.now.queries.now job circle }
    ensures served { IsServed S.left S.faults A.left A.faults K.written K.faults
        shared.now.history.now (given_by job events.entry.now (as_seen O.seen circle))
        (gave_by O.seen result) result.gathered.passes.items }
    ensures same { result.events.ghost_name ≡ events.entry.ghost_name }
{
    scope(
        scope_env(),
        shared.context.rt,
        move |scope| -> JobResult<'_, S, A, K, O>
            requires { IsWork S.left S.faults A.left A.faults K.written K.faults
                shared.now.history.now shared.now.queries.now job circle }
            ensures served { IsServed S.left S.faults A.left A.faults K.written K.faults
                shared.entry.now.history.now
                (given_by job events.entry.now (as_seen O.seen circle)) (gave_by O.seen result)
                result.gathered.passes.items }
            ensures same { result.events.ghost_name ≡ events.entry.ghost_name }
        { serve_within(scope, shared, job, events, circle) },
    )
}

/// The same, in a scope that ends after it.
fn serve_within<'s, 'e, 'a, S, A, K, O: Standing, G: Gate, R: Threads + Wait + Sync>(
    scope: &Scope<'s, &'e ()>,
    shared: &'s RunParts<'s, R, G>,
    job: Job<S, A, K>,
    events: &'a mut K,
    circle: Circle<O>,
) -> JobResult<'a, S, A, K, O>
where
    S: Source + Send + Drop + 's,
    A: Source + Send + Drop,
    K: Sink + Send + Drop + 's,
    requires { IsWork S.left S.faults A.left A.faults K.written K.faults
        shared.now.history.now shared.now.queries.now job circle }
    ensures served { IsServed S.left S.faults A.left A.faults K.written K.faults
        shared.now.history.now (given_by job events.entry.now (as_seen O.seen circle))
        (gave_by O.seen result) result.gathered.passes.items }
    ensures same { result.events.ghost_name ≡ events.entry.ghost_name }
{
    let Job {
        passes,
        evaluator,
        inputs,
        sessions,
        ask_readers,
        room,
    } = job;
    let ResultRoom {
        started,
        streamed,
        works,
        reader_works: asking,
        gathered,
    } = room;
    let mut given = passes.into_iter();
    let Some(pass) = given.next() else {
        unreachable!()
    };
    let started = start_streams(scope, shared, &mut given, inputs, started);
    let works = session_works(
        shared.context.alloc,
        shared.history,
        &mut given,
        sessions,
        works,
    );
    let asking = reader_works(shared.history, given, ask_readers, asking);
    let work = EngineWork {
        pass,
        evaluator,
        events,
        circle,
        why: None,
        window: None,
    };
    let (replied, (served, engine)) = answer_beside(shared, works, asking, work);
    let streamed = join_streams(shared.context.rt, started, streamed);
    gather(engine, streamed, replied, served, gathered)
}

/// Answers the sessions and the readers, each by a thread of its own, and beside them feeds the
/// engine in the calling thread.
fn answer_beside<'a, A, K, O: Standing, G: Gate, R: Threads + Wait + Sync>(
    shared: &RunParts<'_, R, G>,
    works: Vec<SessionWork>,
    asking: Vec<ReaderWork<A, K>>,
    work: EngineWork<'a, K, O>,
) -> (
    Vec<SessionWork>,
    (Vec<ReaderWork<A, K>>, EngineWork<'a, K, O>),
)
where
    A: Source + Send + Drop,
    K: Sink + Send + Drop,
    requires new { AreNewWorks shared.now.history.now works.items }
    requires ready { AreReady A.left A.faults K.written K.faults shared.now.history.now
        shared.now.queries.now asking.items work.evaluator work.pass (as_seen O.seen work.circle) }
    ensures replied { HaveReplied shared.now.history.now
        (1 + shared.now.history.now.terms.streams) (map (λ work. work.asks.items) works.items)
        result.0.items }
    ensures served { (from : ℕ) → HaveNewPasses shared.now.history.now from asking.items →
        HaveServed A.left A.faults K.written K.faults shared.now.history.now from
        (map (λ work. work.reader.source) asking.items) result.1.0.items }
    ensures fed { HasFed K.written K.faults work.entry.evaluator.options shared.now.history.now
        work.entry.events.now result.1.1.events.now (as_seen O.seen work.entry.circle)
        (as_seen O.seen result.1.1.circle) result.1.1.pass result.1.1.why result.1.1.window }
    ensures same { result.1.1.events.ghost_name ≡ work.entry.events.ghost_name }
{
    beside_sessions(
        shared,
        works,
        move || -> (Vec<ReaderWork<A, K>>, EngineWork<'_, K, O>)
            requires { AreReady A.left A.faults K.written K.faults shared.now.history.now
                shared.now.queries.now asking.items work.evaluator work.pass
                (as_seen O.seen work.circle) }
            ensures served { (from : ℕ) →
                HaveNewPasses shared.entry.now.history.now from asking.items →
                HaveServed A.left A.faults K.written K.faults shared.entry.now.history.now from
                (map (λ work. work.reader.source) asking.items) result.0.items }
            ensures fed { HasFed K.written K.faults work.entry.evaluator.options
                shared.entry.now.history.now work.entry.events.now result.1.events.now
                (as_seen O.seen work.entry.circle) (as_seen O.seen result.1.circle)
                result.1.pass result.1.why result.1.window }
            ensures same { result.1.events.ghost_name ≡ work.entry.events.ghost_name }
        { feed_beside(shared, asking, work) },
    )
}

/// Answers the readers, each by a thread of its own, and beside them feeds the engine in the
/// calling thread.
fn feed_beside<'a, A, K, O: Standing, G: Gate, R: Threads + Wait + Sync>(
    shared: &RunParts<'_, R, G>,
    asking: Vec<ReaderWork<A, K>>,
    work: EngineWork<'a, K, O>,
) -> (Vec<ReaderWork<A, K>>, EngineWork<'a, K, O>)
where
    A: Source + Send + Drop,
    K: Sink + Send + Drop,
    requires { AreReady A.left A.faults K.written K.faults shared.now.history.now
        shared.now.queries.now asking.items work.evaluator work.pass (as_seen O.seen work.circle) }
    ensures served { (from : ℕ) → HaveNewPasses shared.now.history.now from asking.items →
        HaveServed A.left A.faults K.written K.faults shared.now.history.now from
        (map (λ work. work.reader.source) asking.items) result.0.items }
    ensures fed { HasFed K.written K.faults work.entry.evaluator.options shared.now.history.now
        work.entry.events.now result.1.events.now (as_seen O.seen work.entry.circle)
        (as_seen O.seen result.1.circle) result.1.pass result.1.why result.1.window }
    ensures same { result.1.events.ghost_name ≡ work.entry.events.ghost_name }
{
    beside_readers(
        shared,
        asking,
        move || -> EngineWork<'_, K, O>
            requires { IsAtStart shared.now.history.now shared.now.queries.now work.evaluator
                work.pass (as_seen O.seen work.circle) }
            ensures fed { HasFed K.written K.faults work.entry.evaluator.options
                shared.entry.now.history.now work.entry.events.now result.events.now
                (as_seen O.seen work.entry.circle) (as_seen O.seen result.circle) result.pass
                result.why result.window }
            ensures same { result.events.ghost_name ≡ work.entry.events.ghost_name }
        { feed_all(shared, work) },
    )
}

/// Puts what the engine and the workers gave together.
fn gather<'a, S: Source + Drop, A: Source + Drop, K: Sink + Drop, O: Standing>(
    engine: EngineWork<'a, K, O>,
    streamed: Vec<StreamResult<S, K>>,
    replied: Vec<SessionWork>,
    served: Vec<ReaderWork<A, K>>,
    mut gathered: ThreadResults<S, A, K>,
) -> JobResult<'a, S, A, K, O>
    requires { HasRoomFor (vec_len streamed) (vec_len replied) (vec_len served) gathered }
    ensures passes { result.gathered.passes.items
        ≡ engine.entry.pass ∷ (map (λ d. d.pass) streamed.items
        ++ (map (λ r. r.pass) replied.items ++ map (λ r. r.pass) served.items)) }
    ensures streams { (result.gathered.sources.items ≡ map (λ d. d.source) streamed.items)
        × (result.gathered.ends.items ≡ map (λ d. d.end) streamed.items)
        × (result.gathered.faults.items ≡ map (λ d. d.faults) streamed.items) }
    ensures answers { (result.gathered.answers.items ≡ map (λ r. r.answers) replied.items)
        × (result.short_of_memory ≡ list_any (λ r. r.memory) replied.items) }
    ensures readers { result.gathered.readers.items ≡ map outcome_of served.items }
    ensures why { (result.why ≡ engine.entry.why) × (result.window ≡ engine.entry.window) }
    ensures events { (result.events.now ≡ engine.entry.events.now)
        × (result.events.ghost_name ≡ engine.entry.events.ghost_name) }
    ensures circle { result.circle ≡ engine.entry.circle }
{
    let EngineWork {
        pass,
        evaluator: _,
        events,
        circle,
        why,
        window,
    } = engine;
    let short_of_memory = put_all(pass, streamed, replied, served, &mut gathered);
    JobResult {
        gathered,
        short_of_memory,
        why,
        window,
        events,
        circle,
    }
}
