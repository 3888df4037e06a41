//! The entries of a front: each query takes all of them, one after another, before the next query
//! does, or beside it by another worker.

ghost use Rattle.std.specs.Prelude.{◌≡◌, ◌≤◌, ◌++◌, [], length, map, IfOk, OnOk};
ghost use Rattle.std.specs.List.{AllZip};
ghost use Rattle.rpq_base.specs.declared.data.Entry.{Entry as EntryTaken};
ghost use Rattle.path_engine.specs.Ends.{AreAllEndsFor, AreEndsFor};
ghost use Rattle.path_engine.specs.Front.{AreGathered, AreInPlace, AreReady, HasAnsweredAll};
ghost use Rattle.path_engine.specs.Front.{HasHistoryFor, HaveAnsweredAll, HaveFed, IsFed, IsReady};
ghost use Rattle.path_engine.specs.Front.{joined, put_at};
ghost use Rattle.path_engine.specs.Parts.{AreReadyParts, HaveFedParts};

use crate::ends::{EdgeNumbers, edge_for};
use crate::parts::{Part, deal, in_order};
use crate::sharing::threads_take_parts;
use delta_forest::Forest;
use end_events::NumberedEvent;
use name_table::Names;
use query_file::Compiled;
use query_index::{Crew, QueryIndex};
use rpq_base::{Entry, Memory, Workers};
use run_context::{Context, Gate, Who};
use std::alloc::Global;
use std::mem::replace;
use std::thread;
use std::thread::Threads;

/// What a query has of a front: its index, and the events of each entry that it took, or the error
/// where memory ran out.
#[derive(Drop)]
pub struct Share {
    /// The number of the query.
    pub place: u32,
    /// What the query took of the front before, and of this one once it was fed. No clause speaks
    /// of it, since it decides time alone.
    pub cost: u64,
    pub index: QueryIndex,
    pub owns: Result<Vec<Vec<NumberedEvent>>, Memory>,
}

/// Answers the entries for each query, and gives the events of each entry, those of the first query
/// first. Where memory runs out, indexes may be missing afterwards.
///
/// The costs are what the queries took of the front before, as far as they are known, and of this
/// one afterwards.
pub(crate) fn answer_by_query<R: Threads + Sync, G: Gate>(
    crew: &Crew<'_, R, G>,
    queries: &[Compiled],
    indexes: &mut Vec<QueryIndex>,
    costs: &mut Vec<u64>,
    names: &Names,
    ends: &[Option<EdgeNumbers<'_>>],
    entries: &[Entry],
) -> Result<Vec<Vec<NumberedEvent>>, Memory>
    requires some_queries { 1 ≤ length queries.now }
    requires few { length queries.now ≤ 64 }
    requires indexes { AllZip (λ query index.
        HasHistoryFor (length entries.now) query names.now index) queries.now indexes.old.items }
    requires ends { AreAllEndsFor names.now queries.now entries.now ends.now }
    ensures { IfOk result (λ events. HaveAnsweredAll names.now entries.now 0 queries.now
        indexes.old.items indexes.new.items (map (λ own. own.items) events.items)) }
{
    let alloc = crew.context.alloc;
    let taken = replace(indexes, Vec::new(alloc));
    let shares = shares_of(alloc, taken, costs)?;
    let fed = feed_shares(crew, queries, shares, names, ends, entries)?;
    note_costs(costs, &fed)?;
    let events = gather(alloc, fed, indexes)?;
    Ok(events)
}

/// The shares of the queries before they take the entries, with what they took of the front before.
fn shares_of(alloc: Global, indexes: Vec<QueryIndex>, costs: &[u64]) -> Result<Vec<Share>, Memory>
    requires few { length indexes.items ≤ 64 }
    ensures indexes { IfOk result (λ shares.
        map (λ share. share.index) shares.items ≡ indexes.items) }
    ensures places { IfOk result (λ shares. AreInPlace shares.items) }
{
    let mut shares = Vec::with_capacity(alloc, indexes.len())?;
    let mut place: u32 = 0;
    for index in indexes {
        let share = share_of(alloc, place, index, costs);
        shares.push(share)?;
        place += 1;
    }
    Ok(shares)
}

/// The share of the query with this number before it takes the entries.
fn share_of(alloc: Global, place: u32, index: QueryIndex, costs: &[u64]) -> Share
    ensures place { result.place ≡ place }
    ensures index { result.index ≡ index }
{
    let cost = cost_at(costs, place);
    let owns = Ok(Vec::new(alloc));
    Share {
        place,
        cost,
        index,
        owns,
    }
}

/// The cost at this place, or none where it isn't known.
fn cost_at(costs: &[u64], place: u32) -> u64 {
    match costs.get(place as usize) {
        Some(cost) => *cost,
        None => 0,
    }
}

/// Feeds the entries to each query's share. More than one query and one entry are shared out among
/// the workers, and else the changes of each entry are.
fn feed_shares<R: Threads + Sync, G: Gate>(
    crew: &Crew<'_, R, G>,
    queries: &[Compiled],
    mut shares: Vec<Share>,
    names: &Names,
    ends: &[Option<EdgeNumbers<'_>>],
    entries: &[Entry],
) -> Result<Vec<Share>, Memory>
    requires places { AreInPlace shares.items }
    requires ready { AreReady (length entries.now) queries.now names.now shares.items }
    requires ends { AreAllEndsFor names.now queries.now entries.now ends.now }
    ensures { IfOk result (λ fed. HaveFed queries.now names.now entries.now shares.items
        fed.items) }
{
    if crew.workers.number() > 1 && shares.len() > 1 && entries.len() > 1 {
        share_out(crew, queries, shares, names, ends, entries)
    } else {
        feed_part(crew, queries, &mut shares, names, ends, entries);
        Ok(shares)
    }
}

/// Feeds the entries to the shares by some workers, among whom they are dealt by what their queries
/// took of the front before. Gives them in their order.
fn share_out<R: Threads + Sync, G: Gate>(
    crew: &Crew<'_, R, G>,
    queries: &[Compiled],
    shares: Vec<Share>,
    names: &Names,
    ends: &[Option<EdgeNumbers<'_>>],
    entries: &[Entry],
) -> Result<Vec<Share>, Memory>
    requires places { AreInPlace shares.items }
    requires ready { AreReady (length entries.now) queries.now names.now shares.items }
    requires ends { AreAllEndsFor names.now queries.now entries.now ends.now }
    ensures { IfOk result (λ fed. HaveFed queries.now names.now entries.now shares.items
        fed.items) }
{
    let alloc = crew.context.alloc;
    let mut parts = deal(alloc, shares, crew.workers)?;
    feed_parts(crew.context, queries, &mut parts, names, ends, entries);
    let fed = in_order(alloc, parts)?;
    Ok(fed)
}

/// Feeds the entries to the shares of each part, by a worker of its own that passes the gate first.
fn feed_parts<R: Threads + Sync, G: Gate>(
    context: &Context<'_, R, G>,
    queries: &[Compiled],
    parts: &mut [Part],
    names: &Names,
    ends: &[Option<EdgeNumbers<'_>>],
    entries: &[Entry],
)
    requires ready { AreReadyParts (length entries.now) queries.now names.now parts.old }
    requires ends { AreAllEndsFor names.now queries.now entries.now ends.now }
    ensures { HaveFedParts queries.now names.now entries.now parts.old parts.new }
{
    threads_take_parts(); // called for its clause
    let threads = parts.len().max(1);
    thread::for_each_mut(
        context.rt,
        parts,
        threads,
        &|_place: usize, part: &mut Part|
            requires { AreReady (length entries.now) queries.now names.now part.now.shares.items
                × AreAllEndsFor names.now queries.now entries.now ends.now }
            ensures { HaveFed queries.entry.now names.entry.now entries.entry.now
                part.entry.now.shares.items part.exit.now.shares.items }
        {
            context.gate.pass(Who::Queries(part.number));
            let alone = Crew {
                context,
                workers: Workers::one(),
            };
            feed_part(&alone, queries, &mut part.shares, names, ends, entries);
        },
    );
}

/// Feeds the entries to each of the shares, one after another.
fn feed_part<R: Threads + Sync, G: Gate>(
    crew: &Crew<'_, R, G>,
    queries: &[Compiled],
    shares: &mut Vec<Share>,
    names: &Names,
    ends: &[Option<EdgeNumbers<'_>>],
    entries: &[Entry],
)
    requires ready { AreReady (length entries.now) queries.now names.now shares.old.items }
    requires ends { AreAllEndsFor names.now queries.now entries.now ends.now }
    ensures { HaveFed queries.now names.now entries.now shares.old.items shares.new.items }
{
    for share in shares.iter_mut() {
        feed_one(crew, queries, share, names, ends, entries);
    }
}

/// Feeds the entries to a share.
fn feed_one<R: Threads + Sync, G: Gate>(
    crew: &Crew<'_, R, G>,
    queries: &[Compiled],
    share: &mut Share,
    names: &Names,
    ends: &[Option<EdgeNumbers<'_>>],
    entries: &[Entry],
)
    requires ready { IsReady (length entries.now) queries.now names.now share.old }
    requires ends { AreAllEndsFor names.now queries.now entries.now ends.now }
    ensures { IsFed queries.now names.now entries.now share.old share.new }
{
    let query = &queries[share.place as usize];
    let owns = answer_all(crew, query, share, names, ends, entries);
    share.owns = owns;
}

/// Answers the entries for the query of a share, gives the events of each, and counts what they
/// cost.
fn answer_all<R: Threads + Sync, G: Gate>(
    crew: &Crew<'_, R, G>,
    query: &Compiled,
    share: &mut Share,
    names: &Names,
    ends: &[Option<EdgeNumbers<'_>>],
    entries: &[Entry],
) -> Result<Vec<Vec<NumberedEvent>>, Memory>
    requires index { HasHistoryFor (length entries.now) query.now names.now share.old.index }
    requires ends { AllZip (λ (entry : EntryTaken) own.
        AreEndsFor names.now share.old.place query.now.dfa entry.tuple.act own)
        entries.now ends.now }
    ensures answered { IfOk result (λ owns. HasAnsweredAll names.now entries.now share.old.place
        query.now share.old.index share.new.index (map (λ own. own.items) owns.items)) }
    ensures place { share.new.place ≡ share.old.place }
{
    let number = share.place;
    share.cost = 0;
    let mut owns = Vec::with_capacity(crew.context.alloc, entries.len())?;
    for (place, entry) in entries.iter().enumerate() {
        let id = edge_for(number, ends[place]);
        let own = share.index.answer(crew, query, number, names, id, entry)?;
        let cost = cost_of(share.index.forest(query), &own);
        share.cost = share.cost.saturating_add(cost);
        owns.push(own)?;
    }
    Ok(owns)
}

/// What an entry cost the query whose forest took it last: one for the entry, one for each tree
/// that its last change touched, and one for each of its events.
fn cost_of(forest: &Forest, own: &[NumberedEvent]) -> u64 {
    let trees = forest.touched().len() as u64;
    let events = own.len() as u64;
    trees.saturating_add(events).saturating_add(1)
}

/// Notes what each query took of the front.
fn note_costs(costs: &mut Vec<u64>, shares: &[Share]) -> Result<(), Memory> {
    costs.clear();
    for share in shares {
        costs.push(share.cost)?;
    }
    Ok(())
}

/// What all queries took of the front.
pub(crate) fn cost_of_all(costs: &[u64]) -> u64 {
    costs
        .iter()
        .fold(0, |all: u64, cost| all.saturating_add(*cost))
}

/// Puts the indexes of the shares into their list, and gives the events of each entry, those of the
/// first share first.
fn gather(
    alloc: Global,
    shares: Vec<Share>,
    indexes: &mut Vec<QueryIndex>,
) -> Result<Vec<Vec<NumberedEvent>>, Memory>
    requires none { indexes.old.items ≡ [] }
    ensures indexes { OnOk result
        (indexes.new.items ≡ map (λ share. share.index) shares.items) }
    ensures events { IfOk result (λ events.
        AreGathered [] shares.items (map (λ own. own.items) events.items)) }
{
    let mut events = Vec::new(alloc);
    for share in shares {
        let Share {
            place: _place,
            cost: _cost,
            index,
            owns,
        } = share;
        indexes.push(index)?;
        append_each(&mut events, owns?)?;
    }
    Ok(events)
}

/// Puts more events of each entry at the end of those of the entry.
fn append_each(
    events: &mut Vec<Vec<NumberedEvent>>,
    owns: Vec<Vec<NumberedEvent>>,
) -> Result<(), Memory>
    ensures { OnOk result (map (λ own. own.items) events.new.items
        ≡ joined (map (λ own. own.items) events.old.items) (map (λ own. own.items) owns.items)) }
{
    let mut place: usize = 0;
    for own in owns {
        put_own(events, place, own)?;
        place += 1;
    }
    Ok(())
}

/// Puts more events at the end of those of the entry at this place, or behind all entries where
/// there is no such place.
fn put_own(
    events: &mut Vec<Vec<NumberedEvent>>,
    place: usize,
    own: Vec<NumberedEvent>,
) -> Result<(), Memory>
    ensures { OnOk result (map (λ own. own.items) events.new.items
        ≡ put_at place (map (λ own. own.items) events.old.items) own.items) }
{
    if place < events.len() {
        push_all(&mut events[place], own)
    } else {
        Ok(events.push(own)?)
    }
}

/// Puts more events at the end of the events. Where there were none, the list is taken as it is.
fn push_all(events: &mut Vec<NumberedEvent>, mut more: Vec<NumberedEvent>) -> Result<(), Memory>
    ensures { OnOk result (events.new.items ≡ events.old.items ++ more.items) }
{
    if events.is_empty() {
        *events = more;
        return Ok(());
    }
    Ok(events.append(&mut more)?)
}

/// The number of the events of all entries.
pub(crate) fn told_in(events: &[Vec<NumberedEvent>]) -> usize {
    events
        .iter()
        .fold(0, |told: usize, own| told.saturating_add(own.len()))
}
