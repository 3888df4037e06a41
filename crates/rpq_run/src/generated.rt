//! The run over generated tuples.

ghost use Rattle.std.specs.Prelude.{◌≡◌, List, ℕ, Option, None, IfOk, OnErr, IfSome};
ghost use Rattle.run_start.specs.Files.{HasQueries};
ghost use Rattle.rpq_text.specs.Definitions.{definitions_of};
ghost use Rattle.generated_run.specs.Generates.{IsGeneration};
ghost use Rattle.rpq_run.specs.Ended.{bytes_of, end_of};
ghost use Rattle.rpq_run.specs.Outcome.{meanings, objects, outcome, sinks};
ghost use Rattle.rpq_run.specs.RunsGenerated.{RunsGenerated};
ghost use Rattle.rpq_run.specs.Written.{Tells};

use crate::errors::tell_end;
use crate::objects::{circle_of, put_back};
use crate::report::Report;
use crate::streams::failed_sinks;
use generated_run::{Generation, GenerationResult, generate};
use kept_list::KeptList;
use rpq_base::Memory;
use rpq_io::{Context, Failed, Files, Gate, Sink, put_all};
use rpq_text::run_status;
use standing::Standing;
use std::random::RandomSource;
use std::thread::Threads;
use stream_tuples::StreamEnd;

/// The run over generated tuples: tells the objects of their events, writes the summary, and tells
/// what went wrong. The only error is [`Memory`], before anything is written or told.
pub fn run_generated<R: Threads + RandomSource + Sync, G: Gate, F: Files>(
    context: &Context<'_, R, G>,
    generation: Generation,
    standing: &mut Vec<Box<dyn Standing>>,
    events: &mut F::Sink,
    errors: &mut F::Sink,
) -> Result<Report<F>, Memory>
    requires generation { IsGeneration generation }
    ensures start { IfOk result (λ report. report.start ≡ None) }
    ensures runs { IfOk result (λ report. (file : Option (List ℕ)) → IfSome file (λ bytes.
        HasQueries generation.two_way bytes (definitions_of generation.queries.items))
        → RunsGenerated (meanings F.Source.left F.Source.faults F.Sink.written F.Sink.faults)
        generation.two_way generation.limit generation.count file
        (sinks events.old events.new errors.old errors.new)
        (objects (λ b. seen b) standing.old.items standing.new.items report.left.items)
        (outcome report)) }
    ensures events_kept { OnErr result (events.new ≡ events.old) }
    ensures errors_kept { OnErr result (errors.new ≡ errors.old) }
    ensures objects_kept { OnErr result (standing.new.items ≡ standing.old.items) }
{
    let alloc = context.alloc;
    let mut ends = Vec::with_capacity(alloc, 1)?;
    let circle = circle_of(alloc, standing)?;
    let fits = generation.count <= generation.limit;
    let GenerationResult {
        history,
        summary,
        circle,
    } = generate(context, generation, circle);
    let left = put_back(standing, circle);
    let is_done = summary.is_some();
    ends.push_reserved(end_of(is_done, fits));
    let failed = failed_sinks(write_summary(events, &summary).is_err(), false, false);
    let status = run_status(&ends, &[], failed, !is_done);
    // A fault of the errors changes no status.
    let _ = tell_end(errors, &ends, &[], failed, status);
    Ok(Report {
        status,
        start: None,
        history: KeptList::of(history),
        streams: ends,
        sources: Vec::new(alloc),
        faults: Vec::new(alloc),
        from: None,
        sessions: Vec::new(alloc),
        readers: Vec::new(alloc),
        replies: None,
        save: None,
        left,
    })
}

/// How the stream of the generated tuples ends: it is whole where all of them fit into the history,
/// unless memory ran out.
fn end_of(is_done: bool, fits: bool) -> StreamEnd
    ensures { result ≡ end_of is_done fits }
{
    match (is_done, fits) {
        (false, _) => StreamEnd::Memory,
        (true, false) => StreamEnd::Full,
        (true, true) => StreamEnd::Whole,
    }
}

/// Writes the summary, if there is one.
fn write_summary<K: Sink>(events: &mut K, summary: &Option<Vec<u8>>) -> Result<(), Failed>
    ensures { Tells K.written K.faults (bytes_of summary.now) events.old events.new result }
{
    match summary {
        Some(text) => put_all(events, text),
        None => Ok(()),
    }
}
