//! The workers of the streams, each in a thread of its own.

ghost use Rattle.std.specs.Prelude.{◌≡◌, ◌≤◌, ◌+◌, [], length, All};
ghost use Rattle.std.specs.Vec.{vec_len, vec_capacity};
ghost use Rattle.std.specs.Vec.Iter.{into_iter_items};
ghost use Rattle.stream_threads.specs.Inputs.{IsNewInput};
ghost use Rattle.stream_threads.specs.Streams.{IsNewPass};
ghost use Rattle.stream_threads.specs.Started.{HasGiven, IsStarted, AreStarted, Gives, Give};
ghost use Rattle.stream_threads.specs.Started.{new_passes};

use crate::run_parts::RunParts;
use crate::sharing::{threads_share_histories, threads_take_passes};
use crate::stream_input::StreamInput;
use crate::stream_worker::{StreamResult, serve_stream};
use rpq_io::{Context, Gate, Sink, Source};
use std::snapshot::Snapshot;
use std::sync::Wait;
use std::thread::{Promise, PromisedHandle, Scope, Threads};
use std::vec::IntoIter;
use stream_history::{History, Pass};

/// What the worker of this input, which has this pass of this history, promises.
#[derive(Drop)]
pub struct StreamPromise<S: Source, K> {
    history: Snapshot<History>,
    pass: Snapshot<Pass>,
    input: Snapshot<StreamInput<S, K>>,
}

impl<S: Source, K: Sink> Promise<StreamResult<S, K>> for StreamPromise<S, K> {
    ghost kept_by = { λ p r. HasGiven S.left S.faults K.written K.faults p.history.value
        p.input.value p.pass.value r };
}

/// A worker that runs in a thread, or what a worker gave whose thread couldn't be made.
#[derive(Drop)]
pub enum StreamThread<S: Source, K: Sink> {
    Running(PromisedHandle<StreamResult<S, K>, StreamPromise<S, K>>),
    Done(StreamResult<S, K>),
}

/// Starts a worker for each input, with the next passes. The list of workers is empty, and has
/// room for them.
pub fn start_streams<
    's,
    'e,
    S: Source + Send + Drop + 's,
    K: Sink + Send + Drop + 's,
    G: Gate,
    R: Threads + Wait + Sync,
>(
    scope: &Scope<'s, &'e ()>,
    shared: &'s RunParts<'s, R, G>,
    passes: &mut IntoIter<Pass>,
    inputs: Vec<StreamInput<S, K>>,
    mut started: Vec<StreamThread<S, K>>,
) -> Vec<StreamThread<S, K>>
    requires passes { into_iter_items passes.old ≡ new_passes shared.now.history.now 1
        (shared.now.history.now.terms.streams + shared.now.history.now.readers) }
    requires streams { length inputs.items ≡ shared.now.history.now.terms.streams }
    requires fresh { All (IsNewInput shared.now.history.now.terms.cap S.left S.faults
        K.written K.faults) inputs.items }
    requires none { started.items ≡ [] }
    requires room { vec_len inputs ≤ vec_capacity started }
    ensures passes { into_iter_items passes.new ≡ new_passes shared.now.history.now
        (1 + shared.now.history.now.terms.streams) shared.now.history.now.readers }
    ensures left_over { length (into_iter_items passes.new) ≡ shared.now.history.now.readers }
    ensures many { vec_len result ≡ vec_len inputs }
    ensures started { AreStarted S.left S.faults K.written K.faults shared.now.history.now 1
        inputs.items result.items }
{
    for input in inputs {
        let Some(pass) = passes.next() else {
            unreachable!()
        };
        started.push_reserved(start_stream(scope, shared, pass, input));
    }
    started
}

/// Starts a worker. Where no thread can be made, does its work.
fn start_stream<
    's,
    'e,
    S: Source + Send + Drop + 's,
    K: Sink + Send + Drop + 's,
    G: Gate,
    R: Threads + Wait + Sync,
>(
    scope: &Scope<'s, &'e ()>,
    shared: &'s RunParts<'s, R, G>,
    pass: Pass,
    input: StreamInput<S, K>,
) -> StreamThread<S, K>
    requires pass { IsNewPass shared.now.history.now pass }
    requires input { IsNewInput shared.now.history.now.terms.cap S.left S.faults
        K.written K.faults input }
    ensures { IsStarted S.left S.faults K.written K.faults shared.now.history.now input pass
        result }
{
    // The thread is handed the parts, since of a reference to a struct with a history in it no proof
    // is found that it may cross.
    let Context { rt, alloc, gate } = *shared.context;
    let history = shared.history;
    let queries = shared.queries;
    threads_share_histories(history); // called for its clause
    threads_take_passes(&pass); // called for its clause
    let promise = StreamPromise {
        history: Snapshot::of(history),
        pass: Snapshot::of(&pass),
        input: Snapshot::of(&input),
    };
    let work = move ||
        requires pass { IsNewPass history.now pass }
        requires input { IsNewInput history.now.terms.cap S.left S.faults K.written K.faults
            input }
    {
        let context = Context { rt, alloc, gate };
        let shared = RunParts {
            context: &context,
            history,
            queries,
        };
        serve_stream(&shared, pass, input)
    };
    match scope.spawn_with(promise, work) {
        Ok(handle) => StreamThread::Running(handle),
        Err(refused) => StreamThread::Done((refused.value)()),
    }
}

/// What the workers give, in their order. The list of it is empty, and has room for it.
pub fn join_streams<S: Source + Drop, K: Sink + Drop, R: Threads>(
    rt: &R,
    started: Vec<StreamThread<S, K>>,
    mut streamed: Vec<StreamResult<S, K>>,
) -> Vec<StreamResult<S, K>>
    requires none { streamed.items ≡ [] }
    requires room { vec_len started ≤ vec_capacity streamed }
    ensures many { vec_len result ≡ vec_len started }
    ensures gives { Give S.left S.faults K.written K.faults started.items result.items }
{
    for one in started {
        streamed.push_reserved(join_stream(rt, one));
    }
    streamed
}

/// What the worker gives.
fn join_stream<S: Source + Drop, K: Sink + Drop, R: Threads>(
    rt: &R,
    started: StreamThread<S, K>,
) -> StreamResult<S, K>
    ensures { Gives S.left S.faults K.written K.faults started result }
{
    match started {
        StreamThread::Running(handle) => handle.join(rt),
        StreamThread::Done(done) => done,
    }
}
