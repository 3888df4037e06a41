//! The check of a queries file.

ghost use Rattle.std.specs.Prelude.{◌≡◌, [], Bool, IfSome, List, ℕ, Option, None, is_err};
ghost use Rattle.std.specs.List.{flat_map};
ghost use Rattle.rpq_text.specs.Definitions.{compiled_line, definitions_of};
ghost use Rattle.rpq_text.specs.WordTexts.{verdict_at_end, verdict_front};
ghost use Rattle.run_start.specs.Files.{HasQueries};
ghost use Rattle.run_start.specs.Ready.{AreUnderstood};
ghost use Rattle.rpq_run.specs.Outcome.{Objects, meanings, outcome, sinks};
ghost use Rattle.rpq_run.specs.RunsCheck.{LeavesObjects, RunsCheck};
ghost use Rattle.rpq_run.specs.Written.{Tells};

use crate::errors::tell_end;
use crate::report::Report;
use crate::streams::failed_sinks;
use crate::word_texts::{end_with_words, put_piece};
use containment_test::Verdict;
use kept_list::KeptList;
use query_file::Compiled;
use rpq_io::{Failed, Files, Sink};
use rpq_text::{first_status, name_of, verdict_front};
use std::alloc::Global;

/// The check of these queries: writes a line for each, and tells what went wrong.
pub fn run_check<F: Files>(
    alloc: Global,
    queries: &[Compiled],
    events: &mut F::Sink,
    errors: &mut F::Sink,
) -> Report<F>
    requires { AreUnderstood queries.now }
    ensures start { result.start ≡ None }
    ensures left { result.left.items ≡ [] }
    ensures runs { (two_way : Bool) (file : Option (List ℕ)) (objects : Objects)
        → LeavesObjects objects
        → IfSome file (λ bytes. HasQueries two_way bytes (definitions_of queries.now))
        → RunsCheck (meanings F.Source.left F.Source.faults F.Sink.written F.Sink.faults)
        two_way file (sinks events.old events.new errors.old errors.new) objects (outcome result) }
{
    let written = write_verdicts(events, queries);
    let failed = failed_sinks(written.is_err(), false, false);
    let status = first_status(&[], &[], failed);
    // A fault of the errors changes no status.
    let _ = tell_end(errors, &[], &[], failed, status);
    Report {
        status,
        start: None,
        history: KeptList::new(alloc),
        streams: Vec::new(alloc),
        sources: Vec::new(alloc),
        faults: Vec::new(alloc),
        from: None,
        sessions: Vec::new(alloc),
        readers: Vec::new(alloc),
        replies: None,
        save: None,
        left: Vec::new(alloc),
    }
}

/// Writes the line of each of the queries, in order.
fn write_verdicts<K: Sink>(events: &mut K, queries: &[Compiled]) -> Result<(), Failed>
    ensures { Tells K.written K.faults (flat_map compiled_line queries.now)
        events.old events.new result }
{
    for query in queries {
        write_verdict(events, query)?;
    }
    Ok(())
}

/// Writes the line of a query.
fn write_verdict<K: Sink>(events: &mut K, query: &Compiled) -> Result<(), Failed>
    ensures { Tells K.written K.faults (compiled_line query.now) events.old events.new result }
{
    let front = verdict_front(&query.def, query.dfa.states());
    put_piece(events, name_of(&query.def))?;
    put_piece(events, front.as_str().as_bytes())?;
    end_with_verdict(events, &query.verdict)
}

/// Writes the verdict behind a space, and ends the line.
fn end_with_verdict<K: Sink>(events: &mut K, verdict: &Verdict) -> Result<(), Failed>
    ensures { Tells K.written K.faults (verdict_at_end verdict.now)
        events.old events.new result }
{
    match verdict {
        Verdict::Yes => put_piece(events, b" yes\n"),
        Verdict::No { p, q, w } => {
            put_piece(events, b" no")?;
            end_with_words(events, &[p, q, w])
        }
    }
}
