//! What entries bring: their events, the paths that show those which gain a pair, and the lines of
//! the bindings that joins lose and gain.

ghost use Rattle.std.specs.Prelude.{◌≡◌, ◌<◌, ◌+◌, ◌^◌, ◌++◌, List, length, map, All, IfOk, IfSome};
ghost use Rattle.std.specs.Prelude.{OnOk};
ghost use Rattle.rpq_base.specs.declared.data.Entry.{Entry as EntryTaken};
ghost use Rattle.path_engine.specs.Engine.{definitions};
ghost use Rattle.path_witness.specs.Marks.{MarksValue, StandsFor as MarksStandFor};
ghost use Rattle.entry_steps.specs.Steps.{OptionsValue, IsShown, AreShown, additions};
ghost use Rattle.entry_steps.specs.Steps.{lines_of};
ghost use Rattle.engine_feed.specs.EventLists.{lists_of, HaveNames};
ghost use Rattle.entry_steps.specs.Joining.{MayTakeEach, TakesEach};
ghost use Rattle.entry_steps.specs.Telling.{steps_with, lists_in, TellsNothing, AreToldBeside};
ghost use Rattle.entry_steps.specs.Showing.{AreFound, AreShownBy, CanShow, IsGained};
ghost use Rattle.entry_steps.specs.Showing.{IsOver, MayShow, TakesAll};

use crate::joining::joined_of;
use crate::step::Step;
use crate::unnamed_steps::PathsAndJoins;
use end_events::{EntryEvents, name_lists};
use engine_feed::EventLists;
use join_bindings::{Joins, accepted_queries_have_join_events, events_lead_on};
use path_engine::Engine;
use path_witness::{Marks, ShownPath};
use rpq_base::{Entry, Event, Memory};
use std::alloc::Global;

/// What is told of these entries beside their events, which the engine found. Marks that are there
/// take the entries, and each addition gets a path that shows it. Joins that are there take the
/// events of one entry after another, and tell how their bindings change. The only error is
/// [`Memory`].
pub fn tell_of(
    alloc: Global,
    engine: &Engine,
    marks: &mut Option<Marks>,
    joins: &mut Option<Joins>,
    entries: &[Entry],
    found: &EventLists,
) -> Result<Vec<PathsAndJoins>, Memory>
    requires names { HaveNames engine.now.names found.now }
    requires room { IfSome marks.old
        (λ (own : MarksValue). own.taken + length entries.now < 2 ^ 64) }
    requires found { (options : OptionsValue) × (before : List EntryTaken)
        × AreFound options engine.now marks.old joins.old before entries.now
        (lists_of engine.now.names found.now) }
    ensures { IfOk result (λ beside. (options : OptionsValue) (before : List EntryTaken)
        → AreFound options engine.now marks.old joins.old before entries.now
        (lists_of engine.now.names found.now)
        → AreToldBeside options engine.now marks.new joins.new before entries.now
        (lists_of engine.now.names found.now) beside.items) }
{
    events_lead_on(); // these are called for their clauses
    accepted_queries_have_join_events();
    if marks.is_none() && joins.is_none() {
        return nothing_beside(alloc, entries.len());
    }
    match found {
        EventLists::Numbered(lists) => {
            let own = name_lists(alloc, engine.names(), lists)?;
            take_found(alloc, engine, marks, joins, entries, &own)
        }
        EventLists::Named(lists) => take_found(alloc, engine, marks, joins, entries, lists),
    }
}

/// For so many entries that nothing is told beside their events. The only error is [`Memory`].
fn nothing_beside(alloc: Global, entries: usize) -> Result<Vec<PathsAndJoins>, Memory>
    ensures many { IfOk result (λ beside. length beside.items ≡ entries) }
    ensures nothing { IfOk result (λ beside. All TellsNothing beside.items) }
{
    let mut beside = Vec::with_capacity(alloc, entries)?;
    for _ in 0..entries {
        beside.push(PathsAndJoins {
            shown: Vec::new(alloc),
            joined: Vec::new(alloc),
        })?;
    }
    Ok(beside)
}

/// What is told beside these events, which have names of their own, as [`tell_of`] does.
fn take_found(
    alloc: Global,
    engine: &Engine,
    marks: &mut Option<Marks>,
    joins: &mut Option<Joins>,
    entries: &[Entry],
    found: &[Vec<Event>],
) -> Result<Vec<PathsAndJoins>, Memory>
    requires room { IfSome marks.old
        (λ (own : MarksValue). own.taken + length entries.now < 2 ^ 64) }
    requires found { (options : OptionsValue) × (before : List EntryTaken)
        × AreFound options engine.now marks.old joins.old before entries.now (lists_in found.now) }
    ensures { IfOk result (λ beside. (options : OptionsValue) (before : List EntryTaken)
        → AreFound options engine.now marks.old joins.old before entries.now (lists_in found.now)
        → AreToldBeside options engine.now marks.new joins.new before entries.now
        (lists_in found.now) beside.items) }
{
    events_lead_on(); // these are called for their clauses
    accepted_queries_have_join_events();
    take_entries(marks, entries)?;
    make_beside(alloc, engine, marks, joins, found)
}

/// These events, each with what is told beside them in the same place. The only error is
/// [`Memory`].
pub fn steps_of<'a>(
    alloc: Global,
    events: Vec<EntryEvents<'a>>,
    beside: Vec<PathsAndJoins>,
) -> Result<Vec<Step<'a>>, Memory>
    requires { length beside.items ≡ length events.items }
    ensures { IfOk result (λ steps. steps.items ≡ steps_with events.entry.items beside.items) }
{
    let mut steps = Vec::with_capacity(alloc, events.len())?;
    let mut beside = beside.into_iter();
    for own in events {
        let Some(PathsAndJoins { shown, joined }) = beside.next() else {
            unreachable!()
        };
        steps.push(Step {
            events: own,
            shown,
            joined,
        })?;
    }
    Ok(steps)
}

/// Marks that are there take the entries. The only error is [`Memory`].
fn take_entries(marks: &mut Option<Marks>, entries: &[Entry]) -> Result<(), Memory>
    requires { IfSome marks.old (λ (own : MarksValue). own.taken + length entries.now < 2 ^ 64) }
    ensures { OnOk result (TakesAll marks.old entries.now marks.new) }
{
    match marks {
        Some(marks) => take_each(marks, entries),
        None => Ok(()),
    }
}

/// The marks take the entries. The only error is [`Memory`].
fn take_each(marks: &mut Marks, entries: &[Entry]) -> Result<(), Memory>
    requires { marks.old.taken + length entries.now < 2 ^ 64 }
    ensures queries { marks.new.queries ≡ marks.old.queries }
    ensures taken { OnOk result ((history : List EntryTaken) → MarksStandFor marks.old history
        → MarksStandFor marks.new (history ++ entries.now)) }
{
    for entry in entries {
        marks.take(entry)?;
    }
    Ok(())
}

/// For each of these lists of events what is shown of them, and the lines that the joins tell of
/// them. The only error is [`Memory`].
fn make_beside(
    alloc: Global,
    engine: &Engine,
    marks: &Option<Marks>,
    joins: &mut Option<Joins>,
    found: &[Vec<Event>],
) -> Result<Vec<PathsAndJoins>, Memory>
    requires may_show { All (λ own. MayShow engine.now marks.now own.items) found.now }
    requires may_take { MayTakeEach joins.old (lists_in found.now) }
    ensures many { IfOk result (λ beside. length beside.items ≡ length found.now) }
    ensures shown { IfOk result (λ beside. All (λ step.
        AreShownBy engine.now marks.now step.events step.shown)
        (steps_with (lists_in found.now) beside.items)) }
    ensures joined { IfOk result (λ beside. TakesEach joins.old (lists_in found.now) joins.new
        (lines_of (steps_with (lists_in found.now) beside.items))) }
{
    let mut beside = Vec::with_capacity(alloc, found.len())?;
    for events in found {
        let shown = shown_of(alloc, engine, marks, events)?;
        let joined = joined_of(alloc, joins, events)?;
        beside.push(PathsAndJoins { shown, joined })?;
    }
    Ok(beside)
}

/// For each addition among these events a path that shows it, where there are marks. The only error
/// is [`Memory`].
fn shown_of(
    alloc: Global,
    engine: &Engine,
    marks: &Option<Marks>,
    events: &[Event],
) -> Result<Vec<ShownPath>, Memory>
    requires { MayShow engine.now marks.now events.now }
    ensures { IfOk result (λ shown. AreShownBy engine.now marks.now events.now shown.items) }
{
    match marks {
        Some(marks) => paths_of(alloc, engine, marks, events),
        None => Ok(Vec::new(alloc)),
    }
}

/// For each addition among these events a path that shows it. The only error is [`Memory`].
fn paths_of(
    alloc: Global,
    engine: &Engine,
    marks: &Marks,
    events: &[Event],
) -> Result<Vec<ShownPath>, Memory>
    requires { (history : List EntryTaken) × CanShow engine.now marks.now history events.now }
    ensures { IfOk result (λ shown. (history : List EntryTaken)
        → CanShow engine.now marks.now history events.now
        → AreShown (definitions engine.now) history (additions events.now) shown.items) }
{
    let mut shown = Vec::new(alloc);
    for event in events {
        if event.added {
            shown.push(path_of(engine, marks, event)?)?;
        }
    }
    Ok(shown)
}

/// A path that shows a gained pair. The only error is [`Memory`].
fn path_of(engine: &Engine, marks: &Marks, event: &Event) -> Result<ShownPath, Memory>
    requires { (history : List EntryTaken) × IsOver engine.now marks.now history
        × IsGained (definitions engine.now) history event.now }
    ensures { IfOk result (λ shown. (history : List EntryTaken)
        → IsOver engine.now marks.now history
        → IsGained (definitions engine.now) history event.now
        → IsShown (definitions engine.now) history event.now shown) }
{
    let pair = &event.pair;
    let Some(path) = engine.best_path(event.query, &pair.from, &pair.to)? else {
        unreachable!()
    };
    marks.show(event.query, &path)
}
