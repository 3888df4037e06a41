//! Entries that an engine is fed, as they stand or with their inverses.

ghost use Rattle.std.specs.Prelude.{◌≡◌, ◌+◌, ◌*◌, ◌≤◌, ◌^◌, List, length, map, IfOk, true, false};
ghost use Rattle.rpq_base.specs.declared.data.Entry.{Entry as EntryTaken};
ghost use Rattle.end_events.specs.Named.{named_lists, HaveAllNames};
ghost use Rattle.path_engine.specs.Engine.{StandsFor};
ghost use Rattle.path_engine.specs.Feeding.{FeedsFront};
ghost use Rattle.two_way.specs.Doubled.{doubled};
ghost use Rattle.two_way.specs.TwoWay.{walked};
ghost use Rattle.engine_feed.specs.EventLists.{lists_of, HaveNames};
ghost use Rattle.engine_feed.specs.Feeding.{FeedsEntries};

use crate::event_lists::EventLists;
use end_events::NumberedEvent;
use path_engine::{Engine, FeedFault};
use rpq_base::{Entry, Event, Memory, Workers};
use run_context::{Context, Gate};
use std::thread::Threads;
use two_way::{all_net_are_two_way, doubled, events_are_differences, net_each};

/// The events of each of these entries, by an engine whose queries may take edges backwards or not,
/// and by at most this many workers, which pass the gate.
///
/// The only error is [`Memory`], after which the engine has to be rebuilt: it may have answered the
/// entries or not, or be spent. Where edges may be taken backwards, the entries are copied, and it
/// costs what twice as many entries cost an engine; the events are netted by their names, and so
/// have copies of them. Else they have numbers alone.
pub fn feed_entries<R: Threads + Sync, G: Gate>(
    engine: &mut Engine,
    context: &Context<'_, R, G>,
    two_way: bool,
    entries: &[Entry],
    workers: Workers,
) -> Result<EventLists, Memory>
    requires stands { (history : List EntryTaken) × StandsFor engine.old (walked two_way history) }
    requires short { engine.old.position + 2 * length entries.now ≤ 2 ^ 30 }
    ensures feeds { IfOk result (λ fed. FeedsEntries two_way engine.old entries.now engine.new
        (lists_of engine.new.names fed)) }
    ensures have_names { IfOk result (λ fed. HaveNames engine.new.names fed) }
    ensures queries { engine.new.queries ≡ engine.old.queries }
{
    if two_way {
        Ok(EventLists::Named(feed_both_ways(engine, context, entries, workers)?))
    } else {
        Ok(EventLists::Numbered(feed_by_numbers(engine, context, entries, workers)?))
    }
}

/// The events of each of the entries, by an engine that is fed each and then its inverse. The only
/// error is [`Memory`].
fn feed_both_ways<R: Threads + Sync, G: Gate>(
    engine: &mut Engine,
    context: &Context<'_, R, G>,
    entries: &[Entry],
    workers: Workers,
) -> Result<Vec<Vec<Event>>, Memory>
    requires stands { (history : List EntryTaken) × StandsFor engine.old (doubled history) }
    requires short { engine.old.position + 2 * length entries.now ≤ 2 ^ 30 }
    ensures feeds { IfOk result (λ lists. FeedsEntries true engine.old entries.now engine.new
        (map (λ own. own.items) lists.items)) }
    ensures queries { engine.new.queries ≡ engine.old.queries }
{
    // these are called for their clauses
    events_are_differences();
    all_net_are_two_way();
    let both = doubled(context.alloc, entries)?;
    let lists = feed_by_names(engine, context, &both, workers)?;
    net_each(context.alloc, entries, &lists)
}

/// The events of each of the entries that the engine is fed, which isn't spent. The only error is
/// [`Memory`].
fn feed_by_names<R: Threads + Sync, G: Gate>(
    engine: &mut Engine,
    context: &Context<'_, R, G>,
    entries: &[Entry],
    workers: Workers,
) -> Result<Vec<Vec<Event>>, Memory>
    requires unspent { engine.old.spent ≡ false }
    requires short { engine.old.position + length entries.now ≤ 2 ^ 30 }
    ensures feeds { IfOk result (λ lists. FeedsFront engine.old entries.now engine.new
        (map (λ own. own.items) lists.items)) }
    ensures queries { engine.new.queries ≡ engine.old.queries }
{
    match engine.feed_front(context, entries, workers) {
        Ok(lists) => Ok(lists),
        Err(FeedFault::Memory(memory)) => Err(memory),
        Err(FeedFault::Spent) => unreachable!(),
    }
}

/// The same by numbers.
fn feed_by_numbers<R: Threads + Sync, G: Gate>(
    engine: &mut Engine,
    context: &Context<'_, R, G>,
    entries: &[Entry],
    workers: Workers,
) -> Result<Vec<Vec<NumberedEvent>>, Memory>
    requires unspent { engine.old.spent ≡ false }
    requires short { engine.old.position + length entries.now ≤ 2 ^ 30 }
    ensures feeds { IfOk result (λ lists. FeedsFront engine.old entries.now engine.new
        (named_lists engine.new.names lists.items)) }
    ensures have_names { IfOk result (λ lists. HaveAllNames engine.new.names lists.items) }
    ensures queries { engine.new.queries ≡ engine.old.queries }
{
    match engine.feed_numbered(context, entries, workers) {
        Ok(lists) => Ok(lists),
        Err(FeedFault::Memory(memory)) => Err(memory),
        Err(FeedFault::Spent) => unreachable!(),
    }
}
