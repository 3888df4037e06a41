//! What entries bring, by an engine that is rebuilt where memory runs out for the first time.

ghost use Rattle.std.specs.Prelude.{IfOk};
ghost use Rattle.entry_steps.specs.Evaluator.{IsFedOver, StandsAfter, StandsInFor, Finds, Tells};
ghost use Rattle.entry_steps.specs.Evaluator.{KeepsSetup, OnlyFeeds};
ghost use Rattle.engine_loop.specs.Loop.{IsRunnable, answered};
ghost use Rattle.engine_loop.specs.Sources.{ComesNext, StaysAs};

use crate::one_rebuild::OneRebuild;
use crate::rebuilding::rebuild;
use crate::source::EntrySource;
use entry_steps::{Evaluator, EventLists, UnnamedSteps, entries_stand_in};
use rpq_base::Memory;
use run_context::{Context, Gate};
use std::thread::Threads;

/// What each entry of the front brings that was given last. The only error is [`Memory`].
pub fn find_told<R: Threads + Sync, G: Gate, S: EntrySource>(
    context: &Context<'_, R, G>,
    source: &mut S,
    evaluator: &mut Evaluator,
    spare: &mut OneRebuild,
) -> Result<UnnamedSteps, Memory>
    requires feeds { S.feeds source.old evaluator.old }
    requires runs { IsRunnable evaluator.old }
    requires stands { StandsAfter evaluator.old (answered evaluator.old (S.given source.old)) }
    requires stands_in { StandsInFor evaluator.old (S.kept source.old)
        (answered evaluator.old (S.given source.old)) }
    requires comes { ComesNext evaluator.old (answered evaluator.old (S.given source.old))
        (S.given source.old) (S.front source.old) }
    ensures stays { StaysAs S.home S.given S.kept S.front S.feeds source.old source.new }
    ensures told { IfOk result (Tells (answered evaluator.old (S.given source.old))
        evaluator.new (S.front source.old)) }
    ensures keeps { KeepsSetup evaluator.old evaluator.new }
{
    let found = feed_with_rebuild(context, source, evaluator, spare)?;
    evaluator.tell(context.alloc, source.front(), found)
}

/// The events of each entry of the front that was given last.
///
/// Where memory runs out for the first time in a run, the engine is rebuilt over the entries that
/// are kept in the place of those that it had answered, and takes these once more. The only error
/// is [`Memory`].
fn feed_with_rebuild<R: Threads + Sync, G: Gate, S: EntrySource>(
    context: &Context<'_, R, G>,
    source: &mut S,
    evaluator: &mut Evaluator,
    spare: &mut OneRebuild,
) -> Result<EventLists, Memory>
    requires feeds { S.feeds source.old evaluator.old }
    requires fed { IsFedOver evaluator.old (answered evaluator.old (S.given source.old)) }
    requires stands_in { StandsInFor evaluator.old (S.kept source.old)
        (answered evaluator.old (S.given source.old)) }
    requires comes { ComesNext evaluator.old (answered evaluator.old (S.given source.old))
        (S.given source.old) (S.front source.old) }
    ensures stays { StaysAs S.home S.given S.kept S.front S.feeds source.old source.new }
    ensures finds { IfOk result (λ found. Finds (answered evaluator.old (S.given source.old))
        evaluator.new (S.front source.old) found) }
    ensures keeps { OnlyFeeds evaluator.old evaluator.new }
{
    entries_stand_in(); // called for its clause
    let memory = match evaluator.find_events(context, source.front()) {
        Ok(found) => return Ok(found),
        Err(memory) => memory,
    };
    spare.take(memory)?;
    rebuild(context, source, evaluator)?;
    evaluator.find_events(context, source.front())
}
