//! An engine that is rebuilt over what its source keeps.

ghost use Rattle.std.specs.Prelude.{◌≡◌, ◌<◌, ◌≤◌, List, length, OnOk, OnErr};
ghost use Rattle.entry_steps.specs.Evaluator.{EvaluatorValue, IsFedOver, StandsInFor, OnlyFeeds};
ghost use Rattle.engine_loop.specs.Loop.{HasAnswered, IsRunnable, answered};
ghost use Rattle.engine_loop.specs.Sources.{StaysAs};
ghost use Rattle.rpq_base.specs.declared.data.Entry.{Entry as EntryGiven};

use crate::source::{AfterShrink, EntrySource};
use entry_steps::{Evaluator, entries_stand_in};
use rpq_base::Memory;
use run_context::{Context, Gate};
use std::thread::Threads;

/// The source gives up what no query sees any more, and where it asks for it, the engine is rebuilt
/// over what is kept then. The only error is [`Memory`].
pub fn shrink<R: Threads + Sync, G: Gate, S: EntrySource>(
    context: &Context<'_, R, G>,
    source: &mut S,
    evaluator: &mut Evaluator,
) -> Result<(), Memory>
    requires runs { IsRunnable evaluator.old }
    requires answered { HasAnswered S.given S.kept S.front S.feeds source.old evaluator.old }
    ensures home { S.home source.new ≡ S.home source.old }
    ensures given { S.given source.new ≡ S.given source.old }
    ensures answered { OnOk result
        (HasAnswered S.given S.kept S.front S.feeds source.new evaluator.new) }
    ensures keeps { OnlyFeeds evaluator.old evaluator.new }
    ensures feeds { OnErr result ((last : EvaluatorValue) × S.feeds source.new last) }
{
    entries_stand_in(); // called for its clause
    match source.shrink(evaluator)? {
        AfterShrink::GoOn => Ok(()),
        AfterShrink::Rebuild => rebuild(context, source, evaluator),
    }
}

/// Rebuilds the engine over the entries that are kept in the place of a history for which it stood,
/// or was to stand, and for which it stands then. The only error is [`Memory`].
///
/// It asks the source for them front by front, from the first one on, and feeds each front as it
/// comes, so that they are never all there a second time.
pub fn rebuild<R: Threads + Sync, G: Gate, S: EntrySource>(
    context: &Context<'_, R, G>,
    source: &mut S,
    evaluator: &mut Evaluator,
) -> Result<(), Memory>
    requires feeds { (was : EvaluatorValue) × S.feeds source.old was }
    requires stands_in { (history : List EntryGiven)
        × StandsInFor evaluator.old (S.kept source.old) history
        × (evaluator.old.position ≡ length history) }
    ensures stays { StaysAs S.home S.given S.kept S.front S.feeds source.old source.new }
    ensures fed { OnOk result ((history : List EntryGiven)
        → StandsInFor evaluator.old (S.kept source.old) history
        → evaluator.old.position ≡ length history → IsFedOver evaluator.new history) }
    ensures keeps { OnlyFeeds evaluator.old evaluator.new }
{
    entries_stand_in(); // called for its clause
    let position = evaluator.position();
    let kept = source.kept_count();
    evaluator.start_anew(context)?;
    while evaluator.position() < kept {
        feed_next(context, source, evaluator, kept)?;
    }
    evaluator.stand_in(position);
    Ok(())
}

/// Feeds the engine with the next entries of those that are kept, as many as the source gives at
/// once, and drops their events. The only error is [`Memory`].
fn feed_next<R: Threads + Sync, G: Gate, S: EntrySource>(
    context: &Context<'_, R, G>,
    source: &mut S,
    evaluator: &mut Evaluator,
    kept: u64,
) -> Result<(), Memory>
    requires feeds { (was : EvaluatorValue) × S.feeds source.old was }
    requires kept { kept ≡ length (S.kept source.old) }
    requires fed { IsFedOver evaluator.old (answered evaluator.old (S.kept source.old)) }
    requires behind { evaluator.old.position < kept }
    ensures stays { StaysAs S.home S.given S.kept S.front S.feeds source.old source.new }
    ensures fed { OnOk result (IsFedOver evaluator.new (answered evaluator.new
        (S.kept source.old))) }
    ensures forward { OnOk result ((evaluator.old.position < evaluator.new.position)
        × (evaluator.new.position ≤ kept)) }
    ensures keeps { OnlyFeeds evaluator.old evaluator.new }
{
    let entries = source.again(evaluator.position())?;
    evaluator.find_events(context, &entries)?;
    Ok(())
}
