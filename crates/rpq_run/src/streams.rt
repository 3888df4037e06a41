//! The run over streams.

ghost use Rattle.std.specs.Prelude.{◌≡◌, ◌≤◌, ◌⊎◌, ◌↔◌, List, [], ℕ, Option, None, Some, Err, true};
ghost use Rattle.std.specs.Prelude.{length, map, All, IfOk, OnErr};
ghost use Rattle.rpq_base.specs.Plain.{IsPlain};
ghost use Rattle.ask_text.specs.Replies.{replies};
ghost use Rattle.rpq_words.specs.declared.settings.Settings.{Settings};
ghost use Rattle.rpq_text.specs.ErrorLines.{run_lines};
ghost use Rattle.rpq_text.specs.Limits.{stream_limit};
ghost use Rattle.rpq_text.specs.Statuses.{IsStatusOf, memory_status};
ghost use Rattle.saved_window.specs.Saved.{saved};
ghost use Rattle.saved_window.specs.SavedText.{saved_text};
ghost use Rattle.saved_window.specs.Then.{count_of, left_of_both, faults_of_both};
ghost use Rattle.rpq_threads.specs.Runs.{IsTask};
ghost use Rattle.rpq_run.specs.Asked.{IsAsked};
ghost use Rattle.rpq_run.specs.Beside.{reader_limit};
ghost use Rattle.rpq_run.specs.Ending.{KeepsParts, SavesIfThere, entries_left, failed_of, is_any};
ghost use Rattle.rpq_run.specs.Ending.{is_left_out, shortage_of};
ghost use Rattle.rpq_run.specs.Failed.{failed_sinks, is_failed, is_memory, is_write, lacks_memory};
ghost use Rattle.rpq_run.specs.Outcome.{ends_of, meanings, objects, outcome, sinks};
ghost use Rattle.rpq_run.specs.Parts.{WritesIfThere};
ghost use Rattle.rpq_run.specs.Replies.{session_limit, texts_of};
ghost use Rattle.rpq_run.specs.Room.{IsEndRoom};
ghost use Rattle.rpq_run.specs.RunsStreams.{RunsStreams};
ghost use Rattle.rpq_run.specs.Shortage.{is_short};
ghost use Rattle.rpq_run.specs.Sources.{stream_sources};
ghost use Rattle.rpq_run.specs.Written.{TellsLines};

use crate::errors::tell_end;
use crate::fault::TextFault;
use crate::objects::{circle_of, put_back};
use crate::reader_ends::ends_of;
use crate::replies::write_replies;
use crate::report::Report;
use crate::room::EndRoom;
use crate::saving::{can_save, save_window};
use crate::sources::parted;
use entry_steps::{fronts_hold_answers, fronts_hold_bindings};
use history_model::Why;
use join_file::joins_are_sound;
use query_file::copied_definitions;
use rpq_base::{Entry, Memory};
use rpq_io::{Context, Files, Gate, Sink, Source};
use rpq_model::QueryDef;
use rpq_text::{SinkName, run_status};
use rpq_threads::{RunOutcome, Task, run_threads};
use run_start::OwnSinks;
use saved_window::{Prefix, Then};
use standing::Standing;
use std::alloc::Global;
use std::random::RandomSource;
use std::sync::Wait;
use std::thread::Threads;

/// The run over streams: takes their tuples, tells their faulty lines where there are sinks for
/// them, tells the objects of the events, and answers the sessions and the readers; writes the
/// replies and then the saved window, and tells what went wrong. The only error is [`Memory`],
/// before anything is written or told.
///
/// Where edges may be taken backwards, an entry's events are the difference that it and its inverse
/// bring together, and nothing is asked. Where there are joins, the changes of their bindings stand
/// at the end of each block.
pub fn run_streams<R: Threads + Wait + RandomSource + Sync, G: Gate, F: Files, P: Prefix + Send>(
    context: &Context<'_, R, G>,
    task: Task<Then<F::Source, P>, F::Source, F::Sink>,
    mut own: OwnSinks<F::Sink>,
    standing: &mut Vec<Box<dyn Standing>>,
    events: &mut F::Sink,
    errors: &mut F::Sink,
) -> Result<Report<F>, Memory>
    requires task { IsTask (left_of_both F.Source.left) (faults_of_both F.Source.faults)
        F.Source.left F.Source.faults F.Sink.written F.Sink.faults task }
    requires alone { (P.COUNT ≡ 0) ⊎ (length task.readers.items ≡ 1) }
    ensures start { IfOk result (λ report. report.start ≡ None) }
    ensures runs { IfOk result (λ report. (given : Settings) (holds : List ℕ → Option (List ℕ))
        → IsAsked F.Source.left F.Sink.written F.Sink.faults given holds P.COUNT task own
        → RunsStreams (meanings F.Source.left F.Source.faults F.Sink.written F.Sink.faults)
        given holds (sinks events.old events.new errors.old errors.new)
        (objects (λ b. seen b) standing.old.items standing.new.items report.left.items)
        (outcome report)) }
    ensures events_kept { OnErr result (events.new ≡ events.old) }
    ensures errors_kept { OnErr result (errors.new ≡ errors.old) }
    ensures objects_kept { OnErr result (standing.new.items ≡ standing.old.items) }
{
    fronts_hold_answers(); // these are called for their clauses
    fronts_hold_bindings();
    joins_are_sound();
    let definitions = copied_definitions(context.alloc, &task.queries)?;
    let room = EndRoom::new(context.alloc, task.readers.len(), task.ask_readers.len())?;
    let circle = circle_of(context.alloc, standing)?;
    let outcome = match run_threads(context, task, events, circle) {
        Ok(outcome) => outcome,
        Err((circle, memory)) => {
            let _none = put_back(standing, circle);
            return Err(memory);
        }
    };
    let written = write_own(context.alloc, &mut own, &outcome, &definitions);
    Ok(end_run(outcome, written, own, room, standing, errors))
}

/// What came of the writing of the texts behind the events.
#[derive(Clone, Copy)]
struct WrittenTexts {
    replied: Result<(), TextFault>,
    saved: Result<(), TextFault>,
}

/// Writes the replies and then the saved window, as far as there are sinks for them.
fn write_own<K: Sink, S: Source, A: Source, O: Standing>(
    alloc: Global,
    own: &mut OwnSinks<K>,
    outcome: &RunOutcome<S, A, K, O>,
    definitions: &[QueryDef],
) -> WrittenTexts
    requires few { length outcome.now.sessions.items ≤ session_limit }
    requires plain { outcome.now.why ≡ None
        → All IsPlain (entries_left outcome.now.window outcome.now.history) }
    ensures replied { WritesIfThere K.written K.faults
        (replies (texts_of (map (λ own. own.items) outcome.now.sessions.items)))
        own.old.replies own.new.replies result.replied }
    ensures saved { SavesIfThere K.written K.faults
        (saved_text (saved definitions.now
        (entries_left outcome.now.window outcome.now.history)))
        (is_left_out outcome.now.why outcome.now.short_of_memory outcome.now.ends.items
        result.replied)
        own.old.save own.new.save result.saved }
{
    let replied = write_replies(alloc, &mut own.replies, &outcome.sessions);
    let wanted = can_save(outcome.why, outcome.short_of_memory, &outcome.ends, replied);
    let saved = save_window(
        alloc,
        &mut own.save,
        definitions,
        entries_left(outcome),
        wanted,
    );
    WrittenTexts { replied, saved }
}

/// The entries in memory of which the window is saved.
fn entries_left<S, A, K, O>(outcome: &RunOutcome<S, A, K, O>) -> &[Entry]
    ensures { result.now ≡ entries_left outcome.now.window outcome.now.history }
{
    match &outcome.window {
        Some(entries) => entries.as_slice(),
        None => outcome.history.as_slice(),
    }
}

/// The report of a run that ended so. Puts the objects back, and tells on the errors what went
/// wrong.
fn end_run<F: Files, P: Prefix>(
    outcome: RunOutcome<Then<F::Source, P>, F::Source, F::Sink, Box<dyn Standing>>,
    written: WrittenTexts,
    own: OwnSinks<F::Sink>,
    room: EndRoom<F::Source>,
    standing: &mut Vec<Box<dyn Standing>>,
    errors: &mut F::Sink,
) -> Report<F>
    requires room { IsEndRoom (length outcome.sources.items) (length outcome.readers.items) room }
    requires some { 1 ≤ length outcome.sources.items }
    requires alone { (P.COUNT ≡ 0) ⊎ (length outcome.sources.items ≡ 1) }
    requires few { length outcome.ends.items ≤ stream_limit }
    requires few_readers { length outcome.readers.items ≤ reader_limit }
    ensures start { result.start ≡ None }
    ensures status { IsStatusOf outcome.ends.items (ends_of outcome.readers.items)
        (failed_of outcome.why written) result.status }
    ensures memory { (result.status ≡ memory_status)
        ↔ (is_short outcome.ends.items (ends_of outcome.readers.items)
        (shortage_of outcome.why outcome.short_of_memory written) ≡ true) }
    ensures told { TellsLines F.Sink.written F.Sink.faults
        (run_lines outcome.ends.items (ends_of outcome.readers.items)
        (failed_of outcome.why written) result.status)
        errors.old errors.new }
    ensures objects { (standing.new.items ≡ outcome.circle.members)
        × (result.left.items ≡ outcome.circle.left) }
    ensures sources { stream_sources result.from result.sources.items ≡ outcome.sources.items }
    ensures from { count_of result.from ≡ P.COUNT }
    ensures parts { KeepsParts outcome own result }
{
    let RunOutcome {
        history,
        window: _window,
        ends,
        sources,
        faults,
        sessions,
        readers,
        why,
        short_of_memory,
        circle,
    } = outcome;
    let OwnSinks { replies, save } = own;
    let left = put_back(standing, circle);
    let (from, sources) = parted(sources, room.sources);
    let asked = ends_of(&readers, room.ends);
    let failed = failed_of(why, written);
    let is_short = is_short_of_memory(why, short_of_memory, written);
    let status = run_status(&ends, &asked, failed, is_short);
    // A fault of the errors changes no status.
    let _ = tell_end(errors, &ends, &asked, failed, status);
    Report {
        status,
        start: None,
        history,
        streams: ends,
        sources,
        faults,
        from,
        sessions,
        readers,
        replies,
        save,
        left,
    }
}

/// The sinks of which a write failed, by why the engine shut and by the texts behind the events.
fn failed_of(why: Option<Why>, written: WrittenTexts) -> &'static [SinkName]
    ensures { result.now ≡ failed_of why written }
{
    failed_sinks(
        is_write(why),
        is_failed(written.replied),
        is_failed(written.saved),
    )
}

/// Whether a write of the events failed.
fn is_write(why: Option<Why>) -> bool
    ensures { result ≡ is_write why }
{
    matches!(why, Some(Why::Write))
}

/// Whether memory ran out for the engine.
fn is_memory(why: Option<Why>) -> bool
    ensures { result ≡ is_memory why }
{
    matches!(why, Some(Why::Memory))
}

/// Whether a write of a text failed.
fn is_failed(written: Result<(), TextFault>) -> bool
    ensures { result ≡ is_failed written }
{
    matches!(written, Err(TextFault::Write))
}

/// Whether memory ran out for a text.
pub fn lacks_memory(written: Result<(), TextFault>) -> bool
    ensures { result ≡ lacks_memory written }
{
    matches!(written, Err(TextFault::Memory))
}

/// Whether memory ran out: for the engine, for a session, or for a text behind the events.
fn is_short_of_memory(why: Option<Why>, short_of_memory: bool, written: WrittenTexts) -> bool
    ensures { result ≡ is_any (shortage_of why short_of_memory written) }
{
    is_memory(why)
        || short_of_memory
        || lacks_memory(written.replied)
        || lacks_memory(written.saved)
}

/// The sinks of which a write failed.
pub fn failed_sinks(events: bool, replies: bool, save: bool) -> &'static [SinkName]
    ensures { result.now ≡ failed_sinks events replies save }
{
    match (events, replies, save) {
        (false, false, false) => &[],
        (false, false, true) => &[SinkName::Save],
        (false, true, false) => &[SinkName::Replies],
        (false, true, true) => &[SinkName::Replies, SinkName::Save],
        (true, false, false) => &[SinkName::Events],
        (true, false, true) => &[SinkName::Events, SinkName::Save],
        (true, true, false) => &[SinkName::Events, SinkName::Replies],
        (true, true, true) => &[SinkName::Events, SinkName::Replies, SinkName::Save],
    }
}
