//! The events between old answers and new ones.

ghost use Rattle.std.specs.Prelude.{◌≡◌, ◌++◌, true, false, map, OnOk, IfOk};
ghost use Rattle.std.specs.List.Sorted.{IsStrictlySortedBy};
ghost use Rattle.rpq_base.specs.Order.{name_cmp};
ghost use Rattle.answer_rows.specs.Answers.{AreTargets, pair, pairs};
ghost use Rattle.answer_rows.specs.BySource.{answers};
ghost use Rattle.answer_rows.specs.Changes.{DifferAtMostIn, changes, event, without};
ghost use Rattle.answer_rows.specs.RowChanges.{row_without};

use crate::row::Row;
use crate::rows::Rows;
use crate::target::{Target, has_target};
use rpq_base::{Event, Memory, Name, Pair, TryClone};
use std::alloc::Global;

/// Which events are told, and of which query.
#[derive(Clone, Copy)]
struct EventKind {
    query: u32,
    added: bool,
}

/// The losses and the gains of a query.
fn kinds(query: u32) -> (EventKind, EventKind)
    ensures losses { (result.0.query ≡ query) × (result.0.added ≡ false) }
    ensures gains { (result.1.query ≡ query) × (result.1.added ≡ true) }
{
    let losses = EventKind {
        query,
        added: false,
    };
    let gains = EventKind { query, added: true };
    (losses, gains)
}

/// The event that this pair is gained or lost.
fn event_of(kind: EventKind, from: &Name, to: &Name) -> Result<Event, Memory>
    ensures { IfOk result (λ each. each ≡ event kind.query kind.added (pair from.now to.now)) }
{
    Ok(Event {
        query: kind.query,
        added: kind.added,
        pair: Pair {
            from: from.copy()?,
            to: to.copy()?,
        },
    })
}

/// Adds an event for each of a source's targets that isn't among the others, in order.
fn push_row(
    events: &mut Vec<Event>,
    kind: EventKind,
    from: &Name,
    targets: &[Target],
    others: &[Target],
) -> Result<(), Memory>
    requires { AreTargets others.now }
    ensures { OnOk result (events.new.items ≡ events.old.items
        ++ map (event kind.query kind.added) (row_without from.now targets.now others.now)) }
{
    for target in targets {
        if !has_target(others, &target.to) {
            events.push(event_of(kind, from, &target.to)?)?;
        }
    }
    Ok(())
}

/// Adds an event for each pair of these sources that isn't in the others, in order.
fn push_sources(
    events: &mut Vec<Event>,
    kind: EventKind,
    sources: &[(Name, Row)],
    others: &Rows,
) -> Result<(), Memory>
    ensures { OnOk result (events.new.items ≡ events.old.items ++ map (event kind.query kind.added)
        (without (pairs (answers sources.now)) (pairs others.now))) }
{
    for (from, row) in sources {
        push_row(events, kind, from, row.targets(), others.targets(from))?;
    }
    Ok(())
}

/// Adds an event for each pair of the rows that isn't in the others, in order.
fn push_all(
    events: &mut Vec<Event>,
    kind: EventKind,
    rows: &Rows,
    others: &Rows,
) -> Result<(), Memory>
    ensures { OnOk result (events.new.items ≡ events.old.items
        ++ map (event kind.query kind.added) (without (pairs rows.now) (pairs others.now))) }
{
    let chunks = rows.rows.chunks();
    for chunk in chunks {
        push_sources(events, kind, chunk.entries(), others)?;
    }
    Ok(())
}

/// The same, where the rows differ at most in those of these sources.
fn push_in(
    events: &mut Vec<Event>,
    kind: EventKind,
    rows: &Rows,
    others: &Rows,
    sources: &[Name],
) -> Result<(), Memory>
    requires sorted { IsStrictlySortedBy name_cmp sources.now }
    requires others { DifferAtMostIn sources.now rows.now others.now }
    ensures { OnOk result (events.new.items ≡ events.old.items
        ++ map (event kind.query kind.added) (without (pairs rows.now) (pairs others.now))) }
{
    // Opens the rows, whose invariant says that they are in order.
    let _ = &rows.rows;
    for from in sources {
        push_row(events, kind, from, rows.targets(from), others.targets(from))?;
    }
    Ok(())
}

/// The events of the query with this number, from its old answers to its new ones: the pairs lost,
/// and then the pairs gained, each in order. A pair whose end moved is neither.
///
/// Takes each pair of both once, with a search among the sources for each source, and in the other
/// row for each pair. The pairs told are copied.
pub fn changes(alloc: Global, query: u32, old: &Rows, new: &Rows) -> Result<Vec<Event>, Memory>
    ensures { IfOk result (λ events. events.items ≡ changes query old.now new.now) }
{
    let (losses, gains) = kinds(query);
    let mut events = Vec::new(alloc);
    push_all(&mut events, losses, old, new)?;
    push_all(&mut events, gains, new, old)?;
    Ok(events)
}

/// The events that [`changes`] gives, where the rows differ at most in those of these sources. The
/// sources are sorted, each once. Looks at their rows alone.
pub fn changes_in(
    alloc: Global,
    query: u32,
    old: &Rows,
    new: &Rows,
    sources: &[Name],
) -> Result<Vec<Event>, Memory>
    requires sorted { IsStrictlySortedBy name_cmp sources.now }
    requires others { DifferAtMostIn sources.now old.now new.now }
    ensures { IfOk result (λ events. events.items ≡ changes query old.now new.now) }
{
    let (losses, gains) = kinds(query);
    let mut events = Vec::new(alloc);
    push_in(&mut events, losses, old, new, sources)?;
    push_in(&mut events, gains, new, old, sources)?;
    Ok(events)
}
