//! What a run begins with, or why it doesn't.

ghost use Rattle.std.specs.Prelude.{◌≡◌, ◌∷◌, [], Some, option_to_list, IfOk, IfErr};
ghost use Rattle.std.specs.Prelude.{IfSome};
ghost use Rattle.rpq_words.specs.Modes.{AreSettings};
ghost use Rattle.rpq_words.specs.declared.settings.RunMode.{RunMode};
ghost use Rattle.rpq_words.specs.Views.{asks_of, joins_of, mode_of, two_way_of};
ghost use Rattle.rpq_text.specs.Definitions.{definitions_of};
ghost use Rattle.run_start.specs.Files.{HasQueries};
ghost use Rattle.run_start.specs.Given.{later_names, sink_names};
ghost use Rattle.run_start.specs.Ready.{AreReadWhole, AreUnderstood, IsReading, IsReady};
ghost use Rattle.run_start.specs.Ready.{IsReadWhole, fault_of};
ghost use Rattle.run_start.specs.Start.{AreSourcesOf, IsRefusedFor, UsesFiles, file_held};
ghost use Rattle.run_start.specs.Steps.{IsRefusal, UsesMore};

use crate::asking::{open_ask_readers, open_asks};
use crate::joins::joins_of_file;
use crate::queries::queries_of_file;
use crate::refusal::Refusal;
use crate::sessions::sessions_of_file;
use crate::sinks::{OwnSinks, open_fault_sinks, open_sinks};
use crate::streams::{Readers, open_readers};
use ask_text::Session;
use join_file::JoinDef;
use live_asks::AskReader;
use query_file::Compiled;
use rpq_io::{Files, Sink, Source};
use rpq_words::{Directions, ModeRef, Settings, StreamSettings};
use std::alloc::Global;
use std::sync::Arc;

/// What a run begins with.
#[derive(Drop)]
pub struct RunPlan<S: Source, K: Sink> {
    pub queries: Vec<Compiled>,
    /// What is done with them.
    pub work: Work<S, K>,
}

/// What is done with the queries of a run.
#[derive(Drop)]
pub enum Work<S: Source, K: Sink> {
    /// They are checked.
    Check,
    /// They are evaluated over this many generated tuples.
    Generate(Directions, u64),
    /// They are evaluated over what is read.
    Read(StreamsPlan<S, K>),
}

/// What is read and answered in a run.
#[derive(Drop)]
pub struct StreamsPlan<S: Source, K: Sink> {
    /// The lines of each stream, in order, of which none was read.
    pub readers: Readers<S>,
    /// Where the faulty lines of each stream go, in the order of the streams: one sink for each, or
    /// none, and then a faulty line ends its stream.
    pub faults: Vec<K>,
    /// The joins over the queries, in the order of their file.
    pub joins: Arc<Vec<JoinDef>>,
    /// What each session asks, in order.
    pub sessions: Vec<Session>,
    /// The readers beside the run, in order, of which nothing was read.
    pub ask_readers: Vec<AskReader<S, K>>,
    /// Where the replies to the sessions and the saved window go.
    pub sinks: OwnSinks<K>,
}

/// Reads the queries file whole and understands it; then the joins file, if there is one, and the
/// asks file, if there is one; opens the saved window with which the run begins, if there is one,
/// the streams in their order, and the asks of the readers beside the run in theirs; and opens the
/// sinks of the replies and of the window to be saved, as far as there are such, those of the faulty
/// lines of the streams, and those of the readers. For a check, and for generated tuples, only the
/// queries file is opened.
/// The first of these that fails ends it.
pub fn begin<F: Files>(
    alloc: Global,
    files: &mut F,
    chosen: &Settings,
) -> Result<RunPlan<F::Source, F::Sink>, Refusal<F::Source>>
    requires { AreSettings chosen.now }
    ensures ready { IfOk result (λ ready. IsReady F.Source.left F.Source.faults
        F.Sink.written F.Sink.faults chosen.now (F.holds files.old)
        ready.queries.items ready.work) }
    ensures read { IfOk result (λ ready.
        AreReadWhole F.Source.left F.Source.faults chosen.now (F.holds files.old)) }
    ensures cause { IfErr result (λ refusal.
        IsRefusedFor chosen.now (F.holds files.old) refusal.fault) }
    ensures source { IfErr result (λ refusal. AreSourcesOf F.Source.left F.Source.faults
        (file_held (Some chosen.now) (F.holds files.old)) refusal.fault
        (option_to_list refusal.source)) }
    ensures files { UsesFiles F.holds F.opened F.made F.unread F.unmade
        (Some chosen.now) (fault_of result) files.old files.new }
{
    let queries = queries_of_file(alloc, files, chosen)?;
    match chosen.mode() {
        ModeRef::Check(_directions) => Ok(RunPlan {
            queries,
            work: Work::Check,
        }),
        ModeRef::Generate(directions, count) => Ok(RunPlan {
            queries,
            work: Work::Generate(directions, count),
        }),
        ModeRef::Streams(run) => {
            let reads = begin_reading(alloc, files, chosen, run, &queries)?;
            Ok(RunPlan {
                queries,
                work: Work::Read(reads),
            })
        }
    }
}

/// Reads the joins file and the asks file, and opens the streams, the asks of the readers beside the
/// run, and the sinks, in a run over streams with these queries, which are those of its queries file.
fn begin_reading<F: Files>(
    alloc: Global,
    files: &mut F,
    chosen: &Settings,
    run: &StreamSettings,
    queries: &[Compiled],
) -> Result<StreamsPlan<F::Source, F::Sink>, Refusal<F::Source>>
    requires settings { AreSettings chosen.now }
    requires streams { mode_of chosen.now ≡ RunMode.Streams run.now }
    requires understood { AreUnderstood queries.now }
    requires has { IfSome (F.holds files.old chosen.now.queries)
        (λ bytes. HasQueries (two_way_of chosen.now) bytes (definitions_of queries.now)) }
    ensures reading { IfOk result (IsReading F.Source.left F.Source.faults
        F.Sink.written F.Sink.faults chosen.now (F.holds files.old) queries.now) }
    ensures read_joins { IfOk result (λ reads. IfSome (joins_of chosen.now) (λ name.
        IsReadWhole F.Source.left F.Source.faults (F.holds files.old name))) }
    ensures read_asks { IfOk result (λ reads. IfSome (asks_of chosen.now) (λ name.
        IsReadWhole F.Source.left F.Source.faults (F.holds files.old name))) }
    ensures refused { IfErr result
        (IsRefusal F.Source.left F.Source.faults chosen.now (F.holds files.old)) }
    ensures files { UsesMore F.holds F.opened F.made F.unread F.unmade chosen.now
        (chosen.now.queries ∷ []) (later_names chosen.now) (sink_names chosen.now)
        (fault_of result) files.old files.new }
{
    let joins = joins_of_file(alloc, files, chosen, queries)?;
    let sessions = sessions_of_file(alloc, files, chosen, queries)?;
    let readers = open_readers(alloc, files, chosen, run)?;
    let asks = open_asks(alloc, files, chosen)?;
    let sinks = open_sinks(files, chosen)?;
    let faults = open_fault_sinks(alloc, files, chosen)?;
    let ask_readers = open_ask_readers(alloc, files, chosen, asks)?;
    Ok(StreamsPlan {
        readers,
        faults,
        joins,
        sessions,
        ask_readers,
        sinks,
    })
}
