//! The events of two steps, one after the other, as those of one.

ghost use Rattle.std.specs.Prelude.{◌≡◌, ◌↔◌, ◌⊎◌, All, Contains, IfOk, OnOk, true, length, map};
ghost use Rattle.std.specs.List.Sorted.{IsStrictlySortedBy};
ghost use Rattle.rpq_base.specs.declared.data.Event.{Event};
ghost use Rattle.two_way.specs.Differences.{event_cmp};
ghost use Rattle.two_way.specs.Doubled.{doubled, doubled_by};
ghost use Rattle.two_way.specs.Net.{opposite, Stays, AreNet, IsNetOf, AreAllNet};

use rpq_base::{Act, Entry, Event, Memory, TryClone};
use std::alloc::Global;
use std::cmp::Ordering;

/// The events of both lists whose opposite isn't in the other list, by query, retractions before
/// additions, then by pair, each once. The lists are in this order. The only error is [`Memory`].
///
/// Each event is looked for in the other list by binary search, and copied where it stays; those
/// that stay are sorted.
pub fn net(alloc: Global, first: &[Event], second: &[Event]) -> Result<Vec<Event>, Memory>
    requires first { IsStrictlySortedBy event_cmp first.now }
    requires second { IsStrictlySortedBy event_cmp second.now }
    ensures { IfOk result (λ events. AreNet first.now second.now events.items) }
{
    let mut events = Vec::new(alloc);
    add_staying(&mut events, first, second)?;
    add_staying(&mut events, second, first)?;
    put_in_order(&mut events);
    Ok(events)
}

/// The events of each of these entries, of the lists of events that the entries and their inverses
/// bring, in the order of the doubled entries. Each list is sorted as [`net`] asks. The only error
/// is [`Memory`].
pub fn net_each(
    alloc: Global,
    entries: &[Entry],
    lists: &[Vec<Event>],
) -> Result<Vec<Vec<Event>>, Memory>
    requires as_many { length lists.now ≡ length (doubled entries.now) }
    requires sorted { All (λ own. IsStrictlySortedBy event_cmp own.items) lists.now }
    ensures { IfOk result (λ netted. AreAllNet entries.now
        (map (λ own. own.items) lists.now) (map (λ own. own.items) netted.items)) }
{
    let mut netted = Vec::new(alloc);
    let mut left = lists;
    for entry in entries {
        let (own, later) = left.split_at(lists_of(entry));
        netted.push(net_of(alloc, own)?)?;
        left = later;
    }
    Ok(netted)
}

/// How many lists of events belong to the entry: its own, and that of its inverse where it has one.
fn lists_of(entry: &Entry) -> usize
    ensures { result ≡ length (doubled_by entry.now) }
{
    match entry.tuple.act {
        Act::Insert { .. } | Act::Delete(_) => 2,
        Act::Tick => 1,
    }
}

/// The net of the lists of events of an entry. The only error is [`Memory`].
fn net_of(alloc: Global, lists: &[Vec<Event>]) -> Result<Vec<Event>, Memory>
    requires { All (λ own. IsStrictlySortedBy event_cmp own.items) lists.now }
    ensures { IfOk result (λ events. IsNetOf (map (λ own. own.items) lists.now) events.items) }
{
    match lists {
        [] => Ok(Vec::new(alloc)),
        [only] => net(alloc, only, &[]),
        [first, second, ..] => net(alloc, first, second),
    }
}

/// Adds copies of the events that none of the others undoes.
fn add_staying(events: &mut Vec<Event>, own: &[Event], others: &[Event]) -> Result<(), Memory>
    requires { IsStrictlySortedBy event_cmp others.now }
    ensures { OnOk result ((each : Event) → Contains events.new.items each
        ↔ (Contains events.old.items each ⊎ Stays own.now others.now each)) }
{
    for event in own {
        if !is_undone(others, event) {
            events.push(event.copy()?)?;
        }
    }
    Ok(())
}

/// Whether one of the others undoes the event, by binary search.
fn is_undone(others: &[Event], event: &Event) -> bool
    requires { IsStrictlySortedBy event_cmp others.now }
    ensures { (result ≡ true) ↔ Contains others.now (opposite event.now) }
{
    let found = others.binary_search_by(|each| order_to_opposite(each, event));
    found.is_ok()
}

/// The order of an event and the one that undoes another.
fn order_to_opposite(each: &Event, event: &Event) -> Ordering
    ensures { result ≡ event_cmp each.now (opposite event.now) }
{
    each.query
        .cmp(&event.query)
        .then(each.added.cmp(&!event.added))
        .then(each.pair.cmp(&event.pair))
}

/// Puts the events in order, each once: one that both lists have has been added twice.
fn put_in_order(events: &mut Vec<Event>)
    ensures sorted { IsStrictlySortedBy event_cmp events.new.items }
    ensures same { (each : Event) →
        Contains events.new.items each ↔ Contains events.old.items each }
{
    events.sort_unstable_by(|first, second| event_order(first, second));
    events.dedup();
}

/// The order of events: by query, retractions before additions, then by pair.
fn event_order(first: &Event, second: &Event) -> Ordering
    ensures { result ≡ event_cmp first.now second.now }
{
    first
        .query
        .cmp(&second.query)
        .then(first.added.cmp(&second.added))
        .then(first.pair.cmp(&second.pair))
}
