//! The engine's loop.

ghost use Rattle.std.specs.Prelude.{◌≡◌, ◌<◌, ◌≤◌, ◌^◌, true, false, length, Ok, OnOk, OnErr};
ghost use Rattle.std.specs.Result.{result_err};
ghost use Rattle.entry_steps.specs.Evaluator.{EvaluatorValue, KeepsSetup, queries_of};
ghost use Rattle.engine_loop.specs.Loop.{IsAlong, TakesMore};

use crate::answering::answer_front;
use crate::one_rebuild::OneRebuild;
use crate::rebuilding::shrink;
use crate::sink::StepSink;
use crate::source::EntrySource;
use entry_steps::{Evaluator, entries_stand_in, every_entry_has_a_step};
use history_model::Why;
use run_context::{Context, Gate};
use std::thread::Threads;

/// Answers all entries that the source gives, and hands the step of each to the sink, until the
/// source is over. The error is why not all of this was done.
pub fn answer_all<R: Threads + Sync, G: Gate, S: EntrySource, K: StepSink>(
    context: &Context<'_, R, G>,
    source: &mut S,
    evaluator: &mut Evaluator,
    sink: &mut K,
) -> Result<(), Why>
    requires { IsAlong S.given S.kept S.front S.feeds K.taken
        source.old evaluator.old sink.old }
    ensures home { S.home source.new ≡ S.home source.old }
    ensures takes { TakesMore K.takes evaluator.old (S.given source.old) (S.given source.new)
        (result_err result) sink.old sink.new }
    ensures along { OnOk result
        (IsAlong S.given S.kept S.front S.feeds K.taken source.new evaluator.new sink.new) }
    ensures keeps { KeepsSetup evaluator.old evaluator.new }
    ensures over { OnOk result (S.is_over source.new) }
    ensures feeds { OnErr result ((last : EvaluatorValue) × S.feeds source.new last) }
{
    K::goes_on(); // called for its clause
    let mut spare = OneRebuild::new();
    loop {
        if !turn(context, source, evaluator, sink, &mut spare)? {
            return Ok(());
        }
    }
}

/// Waits for the next front, answers its entries, and hands their steps to the sink; then what no
/// query sees any more is given up. It answers whether there was a front, or why it can't go on.
fn turn<R: Threads + Sync, G: Gate, S: EntrySource, K: StepSink>(
    context: &Context<'_, R, G>,
    source: &mut S,
    evaluator: &mut Evaluator,
    sink: &mut K,
    spare: &mut OneRebuild,
) -> Result<bool, Why>
    requires { IsAlong S.given S.kept S.front S.feeds K.taken
        source.old evaluator.old sink.old }
    ensures home { S.home source.new ≡ S.home source.old }
    ensures takes { TakesMore K.takes evaluator.old (S.given source.old) (S.given source.new)
        (result_err result) sink.old sink.new }
    ensures along { OnOk result
        (IsAlong S.given S.kept S.front S.feeds K.taken source.new evaluator.new sink.new) }
    ensures keeps { KeepsSetup evaluator.old evaluator.new }
    ensures further { result ≡ Ok true →
        (length (S.given source.old) < length (S.given source.new))
        × (length (S.given source.new) ≤ 2 ^ 61) }
    ensures over { result ≡ Ok false → S.is_over source.new }
    ensures feeds { OnErr result ((last : EvaluatorValue) × S.feeds source.new last) }
{
    every_entry_has_a_step(); // these are called for their clauses
    K::goes_on();
    entries_stand_in();
    let Ok(more) = source.next(evaluator, sink) else {
        return Err(Why::Memory);
    };
    if !more {
        return Ok(false);
    }
    answer_front(context, source, evaluator, sink, spare)?;
    let Ok(()) = shrink(context, source, evaluator) else {
        return Err(Why::Memory);
    };
    Ok(true)
}
