//! One run over the words of the command line.

ghost use Rattle.std.specs.Prelude.{◌≡◌, [], IfNone, IfOk, IfSome, OnErr};
ghost use Rattle.rpq_words.specs.Settings.{settings, texts};
ghost use Rattle.rpq_run.specs.Outcome.{meanings, sinks};
ghost use Rattle.rpq.specs.Program.{AreWords, HasRun, IsOneTally, MayLackMemory, RunsOnce};
ghost use Rattle.rpq.specs.Program.{makes_tuples};

use crate::outlet::Outlet;
use rpq_base::Memory;
use rpq_io::{Context, Files, Gate};
use rpq_run::run;
use rpq_text::StartFault;
use rpq_words::ModeRef;
use run_start::settings_of;
use standing::{Standing, Tally};
use std::alloc::Global;
use std::env::Args;
use std::io::{self, ErrorKind};
use std::random::RandomSource;
use std::sync::Wait;
use std::thread::Threads;

/// One run over the words of these arguments, with these files, the events on standard output and
/// the errors on standard error. Where the words ask for generated tuples it is handed an object
/// that counts all events, since only the summary of these says what objects counted; else it is
/// handed none. It answers the status of the run; and none if there is no memory for the words or
/// that object, and then nothing is begun.
pub fn run_once<R: Threads + Wait + RandomSource + Sync, F: Files, G: Gate>(
    context: &Context<'_, R, G>,
    arguments: io::Result<Args>,
    files: &mut F,
    events: &mut F::Sink,
    errors: &mut F::Sink,
) -> Option<u8>
where
    F::Sink: Outlet,
    requires output { F.Sink.is_output events.old }
    requires errors { F.Sink.is_errors errors.old }
    ensures ran { IfSome result (RunsOnce F.holds F.opened F.made F.unread F.unmade
        (meanings F.Source.left F.Source.faults F.Sink.written F.Sink.faults) arguments
        files.old files.new (sinks events.old events.new errors.old errors.new)) }
    ensures files_kept { IfNone result (files.new ≡ files.old) }
    ensures events_kept { IfNone result (events.new ≡ events.old) }
    ensures errors_kept { IfNone result (errors.new ≡ errors.old) }
{
    let words = words_of(context.alloc, arguments)?;
    if asks_for_tuples(context.alloc, &words)? {
        run_counted(context, &words, files, events, errors).ok()
    } else {
        Some(run_alone(context, &words, files, events, errors))
    }
}

/// The words of the command line, the program's name first, if there is memory for them.
fn words_of(alloc: Global, arguments: io::Result<Args>) -> Option<Vec<String>>
    ensures words { IfSome result (λ words. AreWords arguments words.items) }
    ensures short { IfNone result (MayLackMemory arguments) }
{
    match arguments {
        Ok(arguments) => arguments.collect(alloc).ok(),
        Err(error) if error.kind() == ErrorKind::OutOfMemory => None,
        // A word that isn't UTF-8 can't be handed on: the run refuses the words, as it does none.
        Err(_) => Some(Vec::new(alloc)),
    }
}

/// Whether the words ask for generated tuples, if there is memory to read them.
fn asks_for_tuples(alloc: Global, words: &[String]) -> Option<bool>
    ensures { IfSome result (λ is_wanted. is_wanted ≡ makes_tuples (settings (texts words.now))) }
{
    match settings_of(alloc, words) {
        Ok(chosen) => Some(matches!(chosen.mode(), ModeRef::Generate(_, _))),
        Err(StartFault::Words) => Some(false),
        Err(_) => None,
    }
}

/// A run over these words with no object. It answers its status.
fn run_alone<R: Threads + Wait + RandomSource + Sync, F: Files, G: Gate>(
    context: &Context<'_, R, G>,
    words: &[String],
    files: &mut F,
    events: &mut F::Sink,
    errors: &mut F::Sink,
) -> u8
    ensures { HasRun F.holds F.opened F.made F.unread F.unmade
        (meanings F.Source.left F.Source.faults F.Sink.written F.Sink.faults) (texts words.now)
        files.old files.new (sinks events.old events.new errors.old errors.new)
        (λ objects. objects ≡ []) result }
{
    let Context { rt, alloc, gate } = *context;
    let mut standing: Vec<Box<dyn Standing>> = Vec::new(alloc);
    let report = run(rt, alloc, words, files, events, errors, &mut standing, gate);
    report.status
}

/// A run over these words with an object that counts all events. It answers its status. The only
/// error is [`Memory`], for the object, and then nothing is begun.
fn run_counted<R: Threads + Wait + RandomSource + Sync, F: Files, G: Gate>(
    context: &Context<'_, R, G>,
    words: &[String],
    files: &mut F,
    events: &mut F::Sink,
    errors: &mut F::Sink,
) -> Result<u8, Memory>
    ensures ran { IfOk result (HasRun F.holds F.opened F.made F.unread F.unmade
        (meanings F.Source.left F.Source.faults F.Sink.written F.Sink.faults) (texts words.now)
        files.old files.new (sinks events.old events.new errors.old errors.new) IsOneTally) }
    ensures files_kept { OnErr result (files.new ≡ files.old) }
    ensures events_kept { OnErr result (events.new ≡ events.old) }
    ensures errors_kept { OnErr result (errors.new ≡ errors.old) }
{
    let Context { rt, alloc, gate } = *context;
    let tally = Tally::all(alloc)?;
    let mut standing: Vec<Box<dyn Standing>> = Vec::new(alloc);
    standing.push(Box::new(alloc, tally)?)?;
    let report = run(rt, alloc, words, files, events, errors, &mut standing, gate);
    Ok(report.status)
}
