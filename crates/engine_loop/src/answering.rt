//! A front of entries is answered, and its steps are taken.

ghost use Rattle.std.specs.Prelude.{◌≡◌, ◌≤◌, ◌+◌, ◌^◌, ◌++◌, List, length, All, OnOk, OnErr};
ghost use Rattle.std.specs.Result.{result_err};
ghost use Rattle.entry_steps.specs.Evaluator.{EvaluatorValue, KeepsSetup, StandsAfter, Tells};
ghost use Rattle.entry_steps.specs.Evaluator.{queries_of};
ghost use Rattle.engine_loop.specs.Loop.{IsAlong, IsBehind, TakesMore, answered};
ghost use Rattle.engine_loop.specs.Sources.{GetsOn, HasTheSame, ShowsOnly};
ghost use Rattle.rpq_base.specs.Plain.{IsPlain};
ghost use Rattle.rpq_base.specs.declared.data.Entry.{Entry as EntryTaken};

use crate::finding::find_told;
use crate::one_rebuild::OneRebuild;
use crate::sink::StepSink;
use crate::source::EntrySource;
use entry_steps::{Evaluator, UnnamedSteps, entries_stand_in, every_entry_has_a_step};
use history_model::Why;
use rpq_base::{Entry, Memory};
use run_context::{Context, Gate};
use std::alloc::Global;
use std::thread::Threads;

/// Answers the front that was given last, hands its steps to the sink, and shows the answers to
/// those who read along. The error is why not all of this was done.
pub fn answer_front<R: Threads + Sync, G: Gate, S: EntrySource, K: StepSink>(
    context: &Context<'_, R, G>,
    source: &mut S,
    evaluator: &mut Evaluator,
    sink: &mut K,
    spare: &mut OneRebuild,
) -> Result<(), Why>
    requires { IsBehind S.given S.kept S.front S.feeds K.taken
        source.old evaluator.old sink.old }
    ensures home { S.home source.new ≡ S.home source.old }
    ensures given { S.given source.new ≡ S.given source.old }
    ensures takes { TakesMore K.takes evaluator.old (answered evaluator.old (S.given source.old))
        (S.given source.old) (result_err result) sink.old sink.new }
    ensures along { OnOk result
        (IsAlong S.given S.kept S.front S.feeds K.taken source.new evaluator.new sink.new) }
    ensures keeps { KeepsSetup evaluator.old evaluator.new }
    ensures feeds { OnErr result ((last : EvaluatorValue) × S.feeds source.new last) }
{
    every_entry_has_a_step(); // these are called for their clauses
    K::goes_on();
    entries_stand_in();
    let Ok(told) = find_told(context, source, evaluator, spare) else {
        return Err(Why::Memory);
    };
    hand_over(context.alloc, evaluator, source.front(), told, sink)?;
    let Ok(()) = show(context, source, evaluator, sink) else {
        return Err(Why::Memory);
    };
    Ok(())
}

/// Has the source show the answers over all that it gave, which the workers bring up to date first,
/// if somebody is to see them. The only error is [`Memory`].
fn show<R: Threads + Sync, G: Gate, S: EntrySource, K: StepSink>(
    context: &Context<'_, R, G>,
    source: &mut S,
    evaluator: &mut Evaluator,
    sink: &K,
) -> Result<(), Memory>
    requires feeds { (before : EvaluatorValue) × S.feeds source.old before
        × GetsOn before evaluator.old }
    requires stands { StandsAfter evaluator.old (S.given source.old) }
    requires taken { K.taken sink.now ≡ length (S.given source.old) }
    ensures has { HasTheSame S.home S.given S.kept S.front source.old source.new }
    ensures shows { ShowsOnly (S.given source.old) evaluator.old evaluator.new }
    ensures ok { OnOk result (S.feeds source.new evaluator.new) }
    ensures err { OnErr result ((before : EvaluatorValue)
        → S.feeds source.old before → S.feeds source.new before) }
{
    make_ready(context, source, evaluator);
    source.publish(evaluator, sink)
}

/// Has the workers bring up to date what the source shows, if it is about to show it.
fn make_ready<R: Threads + Sync, G: Gate, S: EntrySource>(
    context: &Context<'_, R, G>,
    source: &S,
    evaluator: &mut Evaluator,
)
    requires { (history : List EntryTaken) × StandsAfter evaluator.old history }
    ensures { (history : List EntryTaken) → StandsAfter evaluator.old history
        → ShowsOnly history evaluator.old evaluator.new }
{
    if source.wants_view() {
        evaluator.refresh(context);
    }
}

/// Hands the steps of these entries, which are told, to the sink. The error is why not all of them
/// were taken.
fn hand_over<K: StepSink>(
    alloc: Global,
    evaluator: &Evaluator,
    entries: &[Entry],
    told: UnnamedSteps,
    sink: &mut K,
) -> Result<(), Why>
    requires tells { (before : List EntryTaken) × Tells before evaluator.now entries.now told }
    requires plain { All IsPlain entries.now }
    requires short { K.taken sink.old + length entries.now ≤ 2 ^ 61 }
    ensures { (before : List EntryTaken) → Tells before evaluator.now entries.now told →
        TakesMore K.takes evaluator.now before (before ++ entries.now) (result_err result)
        sink.old sink.new }
{
    K::goes_on(); // called for its clause
    let Ok(steps) = evaluator.steps(alloc, told) else {
        return Err(Why::Memory);
    };
    sink.take(evaluator.queries(), entries, &steps)
}
