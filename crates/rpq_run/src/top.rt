//! The top call, [`run`].

ghost use Rattle.std.specs.Prelude.{◌≡◌, ◌⊎◌, ℕ, List, [], Option, None, Some};
ghost use Rattle.std.specs.Prelude.{IsNone, IfSome, IsSomeAnd, IfOk, OnErr};
ghost use Rattle.rpq_words.specs.Modes.{AreSettings};
ghost use Rattle.rpq_words.specs.Settings.{settings, texts};
ghost use Rattle.rpq_words.specs.Views.{is_both_ways};
ghost use Rattle.rpq_text.specs.ErrorLines.{start_line};
ghost use Rattle.rpq_text.specs.Statuses.{done_status, memory_status, status_of_start};
ghost use Rattle.run_start.specs.Ready.{IsReady};
ghost use Rattle.run_start.specs.Start.{IsDecided, UsesFiles};
ghost use Rattle.rpq_run.specs.Asked.{IsGenerationOf, IsTaskOf};
ghost use Rattle.rpq_run.specs.Done.{CanBeDone, NothingRose, NothingFails};
ghost use Rattle.rpq_run.specs.Outcome.{meanings, objects, openings, outcome, sinks};
ghost use Rattle.rpq_run.specs.Run.{Refuses, Runs};
ghost use Rattle.rpq_run.specs.Written.{TellsLines};

use crate::check::run_check;
use crate::errors::tell_start;
use crate::generated::run_generated;
use crate::report::Report;
use crate::room::SourceRoom;
use crate::streams::run_streams;
use ask_text::Session;
use entry_steps::Options;
use generated_run::Generation;
use join_file::JoinDef;
use kept_list::KeptList;
use live_asks::AskReader;
use query_file::Compiled;
use rpq_base::Memory;
use rpq_io::{Context, Files, Gate, LineReader, Sink, Source};
use rpq_text::StartFault;
use rpq_threads::Task;
use rpq_words::{Directions, Settings};
use run_start::{Readers, Refusal, RunPlan, StreamsPlan, Work, begin, settings_of};
use standing::Standing;
use std::alloc::Global;
use std::random::RandomSource;
use std::sync::{Arc, Wait};
use std::thread::Threads;

/// Reads queries and streams, and writes on `events` how each tuple changes the answers of each
/// query; answers the asks of sessions meanwhile, and writes the replies; or generates the tuples
/// and writes a summary; or checks the queries, and writes on `events` what there is to say of
/// each.
///
/// Where the words say so, the queries may take edges backwards. Then the events of an entry are
/// the difference that the entry and its inverse bring together. Or a path is written behind each
/// gained pair that shows it: the positions of its entries, and until when the pair lasts.
///
/// With `--joins FILE` there are joins over the queries. A binding of a join gives each of its
/// variables a vertex, such that each of its atoms is an answer. The bindings that an entry takes
/// away and those that it adds are written at the end of the entry's block. The standing objects
/// hear nothing of them.
///
/// The words are those of the command line, the program's name first. The queries file is read
/// whole and understood, then the joins file, and then the asks file. Then the saved window of an
/// earlier run and the streams are opened, and at last the files to be written. Each stream and
/// each session has a thread of its own, and this thread is the engine's: it takes the entries of
/// the one history in their order and writes the block of each. Then it tells the standing objects
/// of the entry's events. With `--check` or `--generate` no other file is opened. What went wrong
/// is told on `errors`. The gate is told of the streams, the engine's workers and the replies, and
/// no clause rests on it. The clauses on contents stand where the files and the sinks tell them.
///
/// Where a saved window is named, it is read before the file of the one stream, as the first part
/// of that stream. Where one is to be saved, what a later run needs of the history is written
/// behind the replies.
///
/// With `--endless` the run goes on as long as its streams do, in memory that goes by what the
/// queries still see: then the first entries of the history may have left the memory. What the
/// clauses say of the history they say of all its entries.
///
/// With `--reader ASKS REPLIES`, once or more often, each reader has a thread of its own, too: it
/// reads the lines of its asks, and answers each on its replies before it reads the next one. The
/// run ends where all streams and all readers have ended.
///
/// With `--faults FILE`, once for each stream, a faulty line doesn't end its stream. The stream's
/// thread writes it at once on the file of its stream, with its number and what is wrong, and goes
/// on with the next line. A line that is too long is passed over up to its end, and its first bytes
/// are told. Nothing of this is on `errors`, and the status isn't changed by it.
///
/// The objects that stayed are in `standing` afterwards, in their order, and those that left in the
/// report.
pub fn run<R: Threads + Wait + RandomSource + Sync, F: Files, G: Gate>(
    rt: &R,
    alloc: Global,
    words: &[String],
    files: &mut F,
    events: &mut F::Sink,
    errors: &mut F::Sink,
    standing: &mut Vec<Box<dyn Standing>>,
    gate: &G,
) -> Report<F>
    // A run that begins is the one over streams, the one over generated tuples or the check that
    // its settings ask for; one that doesn't says why.
    ensures begun { IsNone result.start → IsSomeAnd (settings (texts words.now)) (λ given.
        Runs (meanings F.Source.left F.Source.faults F.Sink.written F.Sink.faults) given
        (F.holds files.old) (sinks events.old events.new errors.old errors.new)
        (objects (λ b. seen b) standing.old.items standing.new.items result.left.items)
        (outcome result)) }
    ensures refused { IfSome result.start (Refuses
        (meanings F.Source.left F.Source.faults F.Sink.written F.Sink.faults)
        (settings (texts words.now)) (F.holds files.old)
        (sinks events.old events.new errors.old errors.new)
        (objects (λ b. seen b) standing.old.items standing.new.items result.left.items)
        (outcome result)) }
    ensures words { IsDecided (settings (texts words.now)) result.start }

    // What it does to the files, and when nothing fails.
    ensures files { UsesFiles F.holds F.opened F.made F.unread F.unmade
        (settings (texts words.now)) result.start files.old files.new }
    ensures done { result.status ≡ done_status → NothingFails
        (meanings F.Source.left F.Source.faults F.Sink.written F.Sink.faults)
        (settings (texts words.now)) (F.holds files.old)
        (openings (F.unread files.old) (F.unread files.new)
        (F.unmade files.old) (F.unmade files.new))
        (sinks events.old events.new errors.old errors.new) (outcome result) }

    // With all files told and without a fault, tuples that the history can hold, and no count
    // risen, all is done, unless memory ran out.
    ensures complete { IfSome (settings (texts words.now)) (λ given.
        CanBeDone given (F.holds files.old) → NothingRose
        (meanings F.Source.left F.Source.faults F.Sink.written F.Sink.faults) given
        (openings (F.unread files.old) (F.unread files.new)
        (F.unmade files.old) (F.unmade files.new))
        (sinks events.old events.new errors.old errors.new) (outcome result)
        → (result.status ≡ done_status) ⊎ (result.status ≡ memory_status)) }
{
    let chosen = match settings_of(alloc, words) {
        Ok(chosen) => chosen,
        Err(fault) => return report_of_refusal(alloc, fault, Vec::new(alloc), errors),
    };
    let Ok(room) = SourceRoom::new(alloc) else {
        return report_of_refusal(alloc, StartFault::Memory, Vec::new(alloc), errors);
    };
    let ready = match begin(alloc, files, &chosen) {
        Ok(ready) => ready,
        Err(Refusal { fault, source }) => {
            return report_of_refusal(alloc, fault, room.of_source(source), errors);
        }
    };
    let context = Context { rt, alloc, gate };
    match run_begun(&context, &chosen, ready, standing, events, errors) {
        Ok(report) => report,
        Err(Memory) => report_of_refusal(alloc, StartFault::Memory, Vec::new(alloc), errors),
    }
}

/// The run that these settings ask for, with what it begins with. The only error is [`Memory`],
/// before anything is written or told.
fn run_begun<R: Threads + Wait + RandomSource + Sync, G: Gate, F: Files>(
    context: &Context<'_, R, G>,
    chosen: &Settings,
    ready: RunPlan<F::Source, F::Sink>,
    standing: &mut Vec<Box<dyn Standing>>,
    events: &mut F::Sink,
    errors: &mut F::Sink,
) -> Result<Report<F>, Memory>
    requires settings { AreSettings chosen.now }
    requires ready { (holds : List ℕ → Option (List ℕ)) × IsReady F.Source.left F.Source.faults
        F.Sink.written F.Sink.faults chosen.now holds ready.queries.items ready.work }
    ensures start { IfOk result (λ report. report.start ≡ None) }
    ensures runs { IfOk result (λ report. (holds : List ℕ → Option (List ℕ))
        → IsReady F.Source.left F.Source.faults F.Sink.written F.Sink.faults chosen.now holds
        ready.queries.items ready.work
        → Runs (meanings F.Source.left F.Source.faults F.Sink.written F.Sink.faults)
        chosen.now holds (sinks events.old events.new errors.old errors.new)
        (objects (λ b. seen b) standing.old.items standing.new.items report.left.items)
        (outcome report)) }
    ensures events_kept { OnErr result (events.new ≡ events.old) }
    ensures errors_kept { OnErr result (errors.new ≡ errors.old) }
    ensures objects_kept { OnErr result (standing.new.items ≡ standing.old.items) }
{
    let RunPlan { queries, work } = ready;
    match work {
        Work::Check => Ok(run_check(context.alloc, &queries, events, errors)),
        Work::Generate(directions, count) => {
            let generation = generation_of(chosen, queries, directions, count);
            run_generated(context, generation, standing, events, errors)
        }
        Work::Read(reads) => {
            let StreamsPlan {
                readers,
                faults,
                joins,
                sessions,
                ask_readers,
                sinks,
            } = reads;
            match readers {
                Readers::Alone(readers) => {
                    let task = task_of(
                        chosen,
                        queries,
                        joins,
                        readers,
                        faults,
                        sessions,
                        ask_readers,
                    );
                    run_streams(context, task, sinks, standing, events, errors)
                }
                Readers::Behind(readers) => {
                    let task = task_of(
                        chosen,
                        queries,
                        joins,
                        readers,
                        faults,
                        sessions,
                        ask_readers,
                    );
                    run_streams(context, task, sinks, standing, events, errors)
                }
            }
        }
    }
}

/// What a run with these settings over so many generated tuples is given, with its queries, which
/// may take edges in these directions.
fn generation_of(
    chosen: &Settings,
    queries: Vec<Compiled>,
    directions: Directions,
    count: u64,
) -> Generation
    ensures { IsGenerationOf chosen.now queries.items (is_both_ways directions) count result }
{
    Generation {
        queries,
        two_way: directions.is_both_ways(),
        workers: chosen.workers,
        limit: chosen.history_cap(),
        count,
    }
}

/// What the threads of a run with these settings are given: its queries, the joins over them, the
/// readers of its streams, the sinks of their faulty lines, what is asked, and the readers that ask
/// beside it.
fn task_of<S: Source, A: Source, K: Sink>(
    chosen: &Settings,
    queries: Vec<Compiled>,
    joins: Arc<Vec<JoinDef>>,
    readers: Vec<LineReader<S>>,
    faults: Vec<K>,
    sessions: Vec<Session>,
    ask_readers: Vec<AskReader<A, K>>,
) -> Task<S, A, K>
    ensures { IsTaskOf chosen.now queries.items joins.value.items readers.items faults.items
        sessions.items ask_readers.items result }
{
    let options = Options {
        two_way: chosen.is_two_way(),
        paths: chosen.has_paths(),
        joins,
    };
    Task {
        queries,
        options,
        workers: chosen.workers,
        limit: chosen.history_cap(),
        readers,
        faults,
        sessions,
        ask_readers,
    }
}

/// The report of a run that doesn't begin for this cause and leaves these sources, which is told.
fn report_of_refusal<F: Files>(
    alloc: Global,
    fault: StartFault,
    sources: Vec<F::Source>,
    errors: &mut F::Sink,
) -> Report<F>
    ensures start { result.start ≡ Some fault }
    ensures status { result.status ≡ status_of_start fault }
    ensures history { (result.history.items ≡ []) × (result.history.base ≡ 0) }
    ensures streams { (result.streams.items ≡ []) × (result.faults.items ≡ []) }
    ensures sources { result.sources.items ≡ sources.items }
    ensures asked { (result.sessions.items ≡ []) × (result.readers.items ≡ []) }
    ensures own { (result.from ≡ None) × (result.replies ≡ None) × (result.save ≡ None) }
    ensures left { result.left.items ≡ [] }
    ensures errors { TellsLines F.Sink.written F.Sink.faults (start_line fault)
        errors.old errors.new }
{
    // A fault of the errors changes no status.
    let _ = tell_start(errors, &fault);
    Report {
        status: fault.status(),
        start: Some(fault),
        history: KeptList::new(alloc),
        streams: Vec::new(alloc),
        sources,
        faults: Vec::new(alloc),
        from: None,
        sessions: Vec::new(alloc),
        readers: Vec::new(alloc),
        replies: None,
        save: None,
        left: Vec::new(alloc),
    }
}
