//! The run of threads over one history.

ghost use Rattle.std.specs.Prelude.{◌≡◌, ◌≤◌, [], IfOk, IfErr, OnErr};
ghost use Rattle.rpq_threads.specs.Runs.{IsTask, Holds};
ghost use Rattle.rpq_threads.specs.Served.{IsBegun};

use crate::room::ResultRoom;
use crate::serving::{Job, JobResult, serve};
use crate::task::{RunOutcome, Task};
use engine_loop::windows_move;
use entry_steps::Evaluator;
use history_model::{fronts_are_legal, legal_is_sound};
use query_file::copied_definitions;
use rpq_base::Memory;
use rpq_io::{Context, Gate, Sink, Source};
use rpq_model::QueryDef;
use standing::{Circle, Standing};
use std::random::RandomSource;
use std::sync::{Arc, Wait};
use std::thread::Threads;
use stream_history::{History, first_view};
use stream_threads::{RunParts, stream_inputs};

/// The most entries by which a published view may stay behind the engine.
const MOST_LAG: u64 = 4_096;

/// Takes the tuples of all streams into one history, each stream by a thread of its own, as far as
/// threads can be made. Meanwhile it answers the entries in the calling thread, writes their blocks
/// on the events, tells the objects of the events of each block that was written whole, and answers
/// the sessions and the readers, each by a thread of its own.
///
/// It ends when all streams have ended, all entries are answered, each session has its answers, and
/// each reader has ended. A failed write of the events and want of memory, also of an object that
/// is told, end it early; but the first time that memory runs out while the engine answers entries,
/// it is rebuilt, and the run goes on. A reader whose replies can't be written, or who lacks
/// memory, ends alone. The only error is [`Memory`], before any thread is started. It comes with
/// the objects that were given.
pub fn run_threads<R, G: Gate, S: Source + Send + Drop, A: Source + Send + Drop, K, O: Standing>(
    context: &Context<'_, R, G>,
    task: Task<S, A, K>,
    events: &mut K,
    circle: Circle<O>,
) -> Result<RunOutcome<S, A, K, O>, (Circle<O>, Memory)>
where
    R: Threads + Wait + RandomSource + Sync,
    K: Sink + Send + Drop,
    requires task { IsTask S.left S.faults A.left A.faults K.written K.faults task }
    requires fresh { circle.left ≡ [] }
    ensures ok { IfOk result (Holds S.left S.faults A.left A.faults K.written K.faults O.seen task
        events.old events.new circle) }
    ensures untouched { OnErr result (events.new ≡ events.old) }
    ensures given_back { IfErr result (λ refused. refused.0 ≡ circle) }
{
    legal_is_sound(); // these are called for their clauses
    fronts_are_legal();
    let NewRun {
        history,
        definitions,
        job,
    } = match begin(context, task) {
        Ok(begun) => begun,
        Err(memory) => return Err((circle, memory)),
    };
    let shared = RunParts {
        context,
        history: &history,
        queries: &definitions,
    };
    let JobResult {
        gathered,
        short_of_memory,
        why,
        window,
        events: back,
        circle,
    } = serve(&shared, job, events, circle);
    take_back(back);
    let journal = history.finish(gathered.passes);
    Ok(RunOutcome {
        history: journal.into_entries(),
        window,
        ends: gathered.ends,
        sources: gathered.sources,
        faults: gathered.faults,
        sessions: gathered.answers,
        readers: gathered.readers,
        why,
        short_of_memory,
        circle,
    })
}

/// Does nothing. This use ties the reference that came back, for the borrow checker, to the
/// parameter that lent it.
fn take_back<T>(x: &mut T)
    ensures { x.new ≡ x.old }
{}

/// A history, the definitions of its queries, and what its threads work with.
#[derive(Drop)]
pub struct NewRun<S: Source, A: Source, K: Sink> {
    pub history: History,
    pub definitions: Arc<Vec<QueryDef>>,
    pub job: Job<S, A, K>,
}

/// A history for what was given, an engine that has answered no entry, and room for what the
/// threads give. The only error is [`Memory`].
fn begin<R: RandomSource, G: Gate, S: Source + Drop, A: Source + Drop, K: Sink + Drop>(
    context: &Context<'_, R, G>,
    task: Task<S, A, K>,
) -> Result<NewRun<S, A, K>, Memory>
    requires { IsTask S.left S.faults A.left A.faults K.written K.faults task }
    ensures { IfOk result (IsBegun S.left S.faults A.left A.faults K.written K.faults task) }
{
    first_view(); // called for its clause
    let Task {
        queries,
        options,
        workers,
        limit,
        readers,
        faults,
        sessions,
        ask_readers,
    } = task;
    let alloc = context.alloc;
    let definitions = Arc::new(alloc, copied_definitions(alloc, &queries)?)?;
    windows_move(definitions.as_slice());
    let mut evaluator = Evaluator::new(context.rt, alloc, queries, &definitions, options, workers)?;
    let first = evaluator.view()?;
    let streams = readers.len() as u32;
    let asking = (sessions.len() + ask_readers.len()) as u32;
    let given = Arc::try_clone(&definitions)?;
    let lag = view_lag(sessions.len(), ask_readers.len());
    let (history, passes) = History::new(alloc, given, streams, asking, lag, limit, first)?;
    let room = ResultRoom::new(alloc, readers.len(), sessions.len(), ask_readers.len())?;
    let inputs = stream_inputs(alloc, readers, faults)?;
    let job = Job {
        passes,
        evaluator,
        inputs,
        sessions,
        ask_readers,
        room,
    };
    Ok(NewRun {
        history,
        definitions,
        job,
    })
}

/// By how many entries a published view may stay behind the engine. A reader that asks beside the
/// run sleeps for the view that it wants, so views are made when somebody wants one. Where there
/// are sessions they are published after each front.
fn view_lag(sessions: usize, ask_readers: usize) -> u64
    ensures { result ≤ 4096 }
{
    if sessions == 0 && ask_readers > 0 {
        MOST_LAG
    } else {
        0
    }
}
