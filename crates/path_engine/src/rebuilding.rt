//! The entries that an engine is rebuilt from.

ghost use Rattle.std.specs.Prelude.{◌≡◌, ◌+◌, ◌≤◌, ◌^◌, List, [], false, length, OnOk};
ghost use Rattle.rpq_base.specs.declared.data.Event.{Event as Happening};
ghost use Rattle.path_engine.specs.Engine.{StandsFor};
ghost use Rattle.path_engine.specs.Feeding.{FeedsFront};

use crate::engine::Engine;
use crate::fault::FeedFault;
use rpq_base::{Entry, Memory, Workers};
use run_context::{Context, Gate};
use std::thread::Threads;

/// How many entries are fed at once. The events of so many are held at a time.
const FRONT: usize = 256;

/// Feeds all entries to an engine over the empty history, front by front, and drops the events that
/// they bring. The only error is [`Memory`].
pub(crate) fn feed_all<R: Threads + Sync, G: Gate>(
    engine: &mut Engine,
    context: &Context<'_, R, G>,
    entries: &[Entry],
    workers: Workers,
) -> Result<(), Memory>
    requires starts { StandsFor engine.old [] }
    requires position { engine.old.position ≡ 0 }
    requires short { length entries.now ≤ 2 ^ 30 }
    ensures stands { OnOk result (StandsFor engine.new entries.now) }
    ensures position { OnOk result (engine.new.position ≡ length entries.now) }
    ensures queries { engine.new.queries ≡ engine.old.queries }
{
    for front in entries.chunks(FRONT) {
        feed_next(engine, context, front, workers)?;
    }
    Ok(())
}

/// Feeds some entries to an engine that isn't spent, and drops the events that they bring. The only
/// error is [`Memory`].
fn feed_next<R: Threads + Sync, G: Gate>(
    engine: &mut Engine,
    context: &Context<'_, R, G>,
    front: &[Entry],
    workers: Workers,
) -> Result<(), Memory>
    requires unspent { engine.old.spent ≡ false }
    requires short { engine.old.position + length front.now ≤ 2 ^ 30 }
    ensures feeds { OnOk result
        ((events : List (List Happening)) × FeedsFront engine.old front.now engine.new events) }
    ensures queries { engine.new.queries ≡ engine.old.queries }
{
    match engine.feed_numbered(context, front, workers) {
        Ok(_) => Ok(()),
        Err(FeedFault::Memory(memory)) => Err(memory),
        Err(FeedFault::Spent) => unreachable!(),
    }
}
