//! The run over generated tuples.

ghost use Rattle.std.specs.Prelude.{◌≡◌, ◌<◌, ◌≤◌, ⊤, List, [], min, map, length, All};
ghost use Rattle.std.specs.Prelude.{IfOk, OnOk, OnErr};
ghost use Rattle.containment_laws.specs.Accepted.{IsAccepted};
ghost use Rattle.engine_loop.specs.Loop.{IsRunnable};
ghost use Rattle.entry_steps.specs.Evaluator.{IsViewAfter, KeepsSetup, StandsAfter};
ghost use Rattle.entry_steps.specs.Evaluator.{queries_of as definitions_in};
ghost use Rattle.rpq_base.specs.declared.data.Entry.{Entry as EntryTaken};
ghost use Rattle.generated_run.specs.Counts.{AreNew};
ghost use Rattle.generated_run.specs.Generates.{AreTold, Generates, IsGeneration};
ghost use Rattle.generated_run.specs.Generates.{queries_of, said_by};
ghost use Rattle.generated_run.specs.Summary.{IsSummary};
ghost use Rattle.standing.specs.Circles.{as_seen};
ghost use Rattle.tuple_generator.specs.Generator.{generated_history};

use crate::counts::EventCounts;
use crate::entries::GeneratedEntries;
use crate::generation::{Generation, GenerationResult};
use crate::summary::summary_text;
use answer_view::View;
use engine_loop::{answer_all, windows_move};
use entry_steps::{Evaluator, Options};
use history_model::Why;
use query_file::{Compiled, copied_definitions};
use rpq_base::{Memory, Workers};
use run_context::{Context, Gate};
use standing::{Circle, Standing};
use std::random::RandomSource;
use std::sync::Arc;
use std::thread::Threads;

/// Makes as many tuples as are wanted and as the history may have, answers the entries in the
/// calling thread, and tells the objects of their events. At the end each object says something of
/// itself, and the summary is written.
///
/// Want of memory ends it early and without a summary; but the first time that memory runs out
/// while the engine answers entries, it is rebuilt, and the run goes on.
pub fn generate<R: Threads + RandomSource + Sync, G: Gate, O: Standing>(
    context: &Context<'_, R, G>,
    task: Generation,
    circle: Circle<O>,
) -> GenerationResult<O>
    requires task { IsGeneration task }
    requires fresh { circle.left ≡ [] }
    ensures { Generates O.seen task circle result }
{
    let mut entries = GeneratedEntries::new(context.alloc, task.count.min(task.limit));
    let mut counts = EventCounts::new(context.alloc, circle);
    let summary = run(context, task, &mut entries, &mut counts).ok();
    let EventCounts {
        alloc: _,
        totals: _,
        circle,
    } = counts;
    GenerationResult {
        history: entries.into_entries(),
        summary,
        circle,
    }
}

/// Makes the history, and the text of its summary. The only reason for none is [`Why::Memory`].
fn run<R: Threads + RandomSource + Sync, G: Gate, O: Standing>(
    context: &Context<'_, R, G>,
    task: Generation,
    entries: &mut GeneratedEntries,
    counts: &mut EventCounts<O>,
) -> Result<Vec<u8>, Why>
    requires task { IsGeneration task }
    requires none { entries.old.count ≡ 0 }
    requires new { AreNew counts.old }
    ensures wanted { entries.new.wanted ≡ entries.old.wanted }
    ensures all { OnOk result (entries.new.count ≡ entries.new.wanted) }
    ensures told { OnOk result (AreTold task.two_way (queries_of task)
        (generated_history entries.new.count) (map O.seen counts.old.circle.members) ⊤
        (as_seen O.seen counts.new.circle)) }
    ensures part { OnErr result (AreTold task.two_way (queries_of task)
        (generated_history entries.new.count) (map O.seen counts.old.circle.members) ⊥
        (as_seen O.seen counts.new.circle)) }
    ensures summary { IfOk result (λ text. IsSummary task.two_way (queries_of task)
        (generated_history entries.new.count) (said_by (as_seen O.seen counts.new.circle))
        text.items) }
{
    let Generation {
        queries,
        two_way,
        workers,
        limit: _,
        count: _,
    } = task;
    let Ok(mut evaluator) = evaluator_of(context, queries, two_way, workers) else {
        return Err(Why::Memory);
    };
    let Ok(()) = answer_all(context, entries, &mut evaluator, counts) else {
        return Err(Why::Memory);
    };
    let Ok(view) = view(context, &mut evaluator) else {
        return Err(Why::Memory);
    };
    let queries = evaluator.queries();
    let alloc = context.alloc;
    let Ok(text) = summary_text(alloc, &counts.totals, queries, &view, &counts.circle) else {
        return Err(Why::Memory);
    };
    Ok(text)
}

/// The answers of each query over all entries, which the workers bring up to date first. The only
/// error is [`Memory`].
fn view<R: Threads + Sync, G: Gate>(
    context: &Context<'_, R, G>,
    evaluator: &mut Evaluator,
) -> Result<Arc<View>, Memory>
    requires { (history : List EntryTaken) × StandsAfter evaluator.old history }
    ensures view { (history : List EntryTaken) → StandsAfter evaluator.old history →
        IfOk result (λ view. IsViewAfter evaluator.old history view.value) }
    ensures keeps { KeepsSetup evaluator.old evaluator.new }
{
    evaluator.refresh(context);
    evaluator.view()
}

/// An evaluator of the queries, which may take edges backwards or not, after which no entry came.
/// The only error is [`Memory`].
fn evaluator_of<R: RandomSource, G>(
    context: &Context<'_, R, G>,
    queries: Vec<Compiled>,
    two_way: bool,
    workers: Workers,
) -> Result<Evaluator, Memory>
    requires some { 1 ≤ length queries.items }
    requires few { length queries.items ≤ 64 }
    requires accepted { All (λ each. IsAccepted each.def) queries.items }
    ensures two_way { IfOk result (λ evaluator. evaluator.options.two_way ≡ two_way) }
    ensures queries { IfOk result (λ evaluator.
        definitions_in evaluator ≡ map (λ each. each.def) queries.items) }
    ensures stands { IfOk result (λ evaluator. StandsAfter evaluator []) }
    ensures runs { IfOk result IsRunnable }
{
    let alloc = context.alloc;
    let copies = copied_definitions(alloc, &queries)?;
    windows_move(&copies); // called for its clause
    let definitions = Arc::new(alloc, copies)?;
    let options = Options {
        two_way,
        paths: false,
        joins: Arc::new(alloc, Vec::new(alloc))?,
    };
    Evaluator::new(context.rt, alloc, queries, &definitions, options, workers)
}
