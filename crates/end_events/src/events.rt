//! Events from ends that come or go.

ghost use Rattle.std.specs.Prelude.{◌≡◌, ◌++◌, ℕ, List, All, map, IfOk, OnOk};
ghost use Rattle.std.specs.List.{list_any};
ghost use Rattle.std.specs.List.Sorted.{IsStrictlySortedBy};
ghost use Rattle.rpq_base.specs.Order.{pair_cmp};
ghost use Rattle.rpq_base.specs.Same.{same_pair};
ghost use Rattle.rpq_model.specs.Events.{event, without};
ghost use Rattle.end_events.specs.Changes.{AreChangesOf, AreEventsBetween, AreNamed, Ends};
ghost use Rattle.end_events.specs.Named.{named, HasNames};
ghost use Rattle.end_events.specs.Pairs.{pair_at, pairs_at, AreNumbered, IsNumbered};
ghost use Rattle.source_tree.specs.Ends.{is_gain};

use crate::numbered_event::NumberedEvent;
use crate::pairs::{NumberedPair, given_pairs, pair_order};
use name_table::Names;
use rpq_base::Memory;
use rpq_model::Mode;
use source_tree::{EndChange, Outcome};
use std::alloc::Global;

/// The events that two changes bring, one after the other, with which these ends go or come, for
/// the query with this number and mode. A query that takes simple paths has none for pairs of a
/// vertex with itself. The only error is [`Memory`].
///
/// A pair changes at most twice, so one whose end both goes and comes is as it was before. Each
/// list is gone through twice, first for the count; the pairs are put in order by the beginnings of
/// their names, and where these are the same by the names' ranks or all their bytes. No name is
/// copied. Where no end goes or comes, nothing is allocated.
pub fn events_between(
    alloc: Global,
    query: u32,
    mode: Mode,
    names: &Names,
    first: &[EndChange],
    second: &[EndChange],
) -> Result<Vec<NumberedEvent>, Memory>
    requires first_named { AreNamed names.now first.now }
    requires second_named { AreNamed names.now second.now }
    ensures are { (start middle last : Ends) →
        AreChangesOf start middle first.now → AreChangesOf middle last second.now →
        IfOk result (λ events. AreEventsBetween query mode names.now start last
        (map (named names.now) events.items)) }
    ensures have_names { IfOk result (λ events. All (HasNames names.now) events.items) }
{
    let given = given_pairs(alloc, mode, names, first, second)?;
    let mut events = Vec::new(alloc);
    events.reserve(given.lost.len().saturating_add(given.gained.len()))?;
    push_events(
        &mut events,
        query,
        Outcome::Lost,
        names,
        &given.lost,
        &given.gained,
    )?;
    push_events(
        &mut events,
        query,
        Outcome::Gained,
        names,
        &given.gained,
        &given.lost,
    )?;
    Ok(events)
}

/// Adds an event for each pair that isn't among the others, in order.
fn push_events(
    events: &mut Vec<NumberedEvent>,
    query: u32,
    outcome: Outcome,
    names: &Names,
    pairs: &[NumberedPair],
    others: &[NumberedPair],
) -> Result<(), Memory>
    requires numbered { AreNumbered names.now pairs.now }
    requires others_numbered { AreNumbered names.now others.now }
    requires others_sorted { IsStrictlySortedBy pair_cmp (pairs_at names.now others.now) }
    ensures added { OnOk result (map (named names.now) events.new.items
        ≡ map (named names.now) events.old.items ++ map (event query (is_gain outcome))
        (without (pairs_at names.now pairs.now) (pairs_at names.now others.now))) }
    ensures have_names { OnOk result (All (HasNames names.now) events.old.items →
        All (HasNames names.now) events.new.items) }
{
    for pair in pairs {
        if !is_among(names, others, pair) {
            events.push(event_of(query, outcome, pair))?;
        }
    }
    Ok(())
}

/// Whether the pair is among others in order, by binary search.
fn is_among(names: &Names, others: &[NumberedPair], pair: &NumberedPair) -> bool
    requires numbered { IsNumbered names.now pair.now }
    requires others_numbered { AreNumbered names.now others.now }
    requires sorted { IsStrictlySortedBy pair_cmp (pairs_at names.now others.now) }
    ensures { result ≡ list_any (same_pair (pair_at names.now pair.now))
        (pairs_at names.now others.now) }
{
    if others.is_empty() {
        return false;
    }
    let found = others.binary_search_by(|each| pair_order(names, each, pair));
    found.is_ok()
}

/// The event of the pair with this outcome.
fn event_of(query: u32, outcome: Outcome, pair: &NumberedPair) -> NumberedEvent
    ensures named { (names : List (List ℕ)) →
        named names result ≡ event query (is_gain outcome) (pair_at names pair.now) }
    ensures has_names { (names : List (List ℕ)) → IsNumbered names pair.now →
        HasNames names result }
{
    NumberedEvent {
        query,
        added: outcome.is_gain(),
        root: pair.root,
        vertex: pair.vertex,
    }
}
