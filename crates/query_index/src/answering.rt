//! An entry for a query: first what the clock reaches goes, and then the entry's edge comes or goes.
//! Its events have the numbers of names.

ghost use Rattle.std.specs.Prelude.{◌≡◌, ◌≤◌, ◌<◌, ◌^◌, ◌-◌, ℕ, List};
ghost use Rattle.std.specs.Prelude.{IfOk, OnOk, false};
ghost use Rattle.dfa_table.specs.DfaValue.{DfaValue};
ghost use Rattle.delta_forest.specs.Changes.{RaisesSmall};
ghost use Rattle.name_table.specs.Names.{AreSmall};
ghost use Rattle.query_file.specs.Compiled.{IsCompiled};
ghost use Rattle.query_index.specs.Answering.{HasAnswered, HasHistory, IsEdgeFor};
ghost use Rattle.query_index.specs.Laws.{Laws};
ghost use Rattle.query_index.specs.Showing.{LeavesFresh};
ghost use Rattle.query_index.specs.Stepping.{HasApplied, HasStepped, Suits, log_if};
ghost use Rattle.rpq_base.specs.declared.data.Act.TheVariants.{Insert, Delete};
ghost use Rattle.rpq_base.specs.declared.data.Edge.{Edge as EdgeTaken};
ghost use Rattle.window_clock.specs.Clock.{ClockValue};

use crate::index::QueryIndex;
use crate::stale::StaleRoots;
use containment_laws::accepted_queries_have_answers;
use delta_forest::{Change, EndChange, Forest, each_has_an_end, ends_are_one, kept_is_best};
use edge_store::EdgeId;
use end_events::{NumberedEvent, events_between};
use index_laws::{index_keeps_bests, index_tells_answers, stores_follow};
use name_table::Names;
use query_file::Compiled;
use rpq_base::{Act, Entry, Memory, Workers};
use rpq_model::Mode;
use run_context::{Context, Gate};
use std::alloc::Global;
use std::thread::Threads;
use window_clock::WindowClock;

/// What makes the changes of an entry: at most this many workers, among whom a forest shares out a
/// change of many trees.
#[derive(Drop)]
pub struct Crew<'a, R, G> {
    pub context: &'a Context<'a, R, G>,
    pub workers: Workers,
}

impl QueryIndex {
    /// Answers the entry, whose edge has these numbers, for the query, which has this number: the
    /// events that it brings. What the change touches is shared out among the workers. The only
    /// error is [`Memory`], after which the index is of no use.
    pub fn answer<R: Threads + Sync, G: Gate>(
        &mut self,
        crew: &Crew<'_, R, G>,
        query: &Compiled,
        number: u32,
        names: &Names,
        id: Option<EdgeId>,
        entry: &Entry,
    ) -> Result<Vec<NumberedEvent>, Memory>
        requires index { HasHistory query.now names.now self.old }
        requires edge { IsEdgeFor names.now query.now.dfa entry.now.tuple.act id }
        ensures { IfOk result (λ events. HasAnswered names.now entry.now number query.now self.old
            self.new events.items) }
    {
        let mode = mode_of(query);
        names.keeps_numbers_small(); // called for its clause
        let logs = self.step(crew, id, entry)?;
        laws();
        let alloc = crew.context.alloc;
        let second = self.second_log(logs.second);
        events_between(alloc, number, mode, names, &logs.first, second)
    }

    /// The ends that came or went with the second change of an entry, if there was one.
    fn second_log(&self, second: bool) -> &[EndChange]
        ensures { result.now ≡ log_if second self.now.forest }
    {
        if second { self.trees().log() } else { &[] }
    }

    /// Takes the entry, whose edge has these numbers.
    fn step<R: Threads + Sync, G: Gate>(
        &mut self,
        crew: &Crew<'_, R, G>,
        id: Option<EdgeId>,
        entry: &Entry,
    ) -> Result<Logs, Memory>
        requires unbroken { self.old.forest.broken ≡ false }
        requires calls { self.old.forest.calls < 2 ^ 40 }
        requires small { (names : List (List ℕ)) × AreSmall names
            × IsEdgeFor names self.old.forest.dfa entry.now.tuple.act id }
        ensures { IfOk result (λ logs. (names : List (List ℕ)) →
            IsEdgeFor names self.old.forest.dfa entry.now.tuple.act id →
            HasStepped names entry.now self.old self.new logs.first.items
            (log_if logs.second self.new.forest)) }
    {
        let now = self.clock.advance(entry.tuple.time);
        change_forest(crew, &mut self.forest, &mut self.stale, Change::Expire(now))?;
        let first = log_of(crew.context.alloc, &self.forest)?;
        match change_for(&self.clock, now, id, entry) {
            Some(change) => {
                change_forest(crew, &mut self.forest, &mut self.stale, change)?;
                Ok(Logs {
                    first,
                    second: true,
                })
            }
            None => Ok(Logs {
                first,
                second: false,
            }),
        }
    }
}

/// Which paths the query takes. Its contract also has what the types keep of a query.
pub(crate) fn mode_of(query: &Compiled) -> Mode
    ensures is { result ≡ query.now.def.mode }
    ensures slide { 0 < query.now.def.window.slide }
    ensures compiled { IsCompiled query.now }
{
    // read for the second clause
    let _slide = query.def.window.slide;
    query.def.mode
}

/// The laws of the layers below, called for their clauses.
fn laws()
    ensures { Laws }
{
    kept_is_best();
    ends_are_one();
    each_has_an_end();
    stores_follow();
    index_keeps_bests();
    index_tells_answers();
    accepted_queries_have_answers();
}

/// The ends that came or went with the first of the two changes of an entry, and whether there was
/// a second, whose ends the forest tells as those of its last change.
#[derive(Drop)]
pub struct Logs {
    pub first: Vec<EndChange>,
    pub second: bool,
}

/// Applies the change to a forest, and marks the roots that it touches as stale.
fn change_forest<R: Threads + Sync, G: Gate>(
    crew: &Crew<'_, R, G>,
    forest: &mut Forest,
    stale: &mut StaleRoots,
    change: Change,
) -> Result<(), Memory>
    requires unbroken { forest.old.broken ≡ false }
    requires calls { forest.old.calls < 2 ^ 60 }
    requires small { RaisesSmall change }
    ensures applied { OnOk result (HasApplied change forest.old forest.new forest.new.log) }
    ensures fresh { OnOk result (LeavesFresh stale.old forest.old stale.new forest.new) }
{
    forest.apply(crew.context, change, crew.workers)?;
    stale.mark(forest.touched());
    Ok(())
}

/// The ends that came or went with the last change of a forest, by a copy.
fn log_of(alloc: Global, forest: &Forest) -> Result<Vec<EndChange>, Memory>
    ensures { IfOk result (λ log. log.items ≡ forest.now.log) }
{
    Ok(Vec::from_slice(alloc, forest.log())?)
}

/// The change that the entry, whose edge has these numbers, makes at the clock, if it makes one.
fn change_for(clock: &WindowClock, now: u64, id: Option<EdgeId>, entry: &Entry) -> Option<Change>
    requires { now ≡ clock.now.clock }
    ensures { (names : List (List ℕ)) (dfa : DfaValue) →
        IsEdgeFor names dfa entry.now.tuple.act id →
        Suits names dfa clock.now entry.now.tuple.time entry.now.tuple.act result }
{
    match &entry.tuple.act {
        Act::Insert { until, .. } => raise_for(clock, now, id, entry.tuple.time, *until),
        Act::Delete(_) => remove_for(id),
        Act::Tick => None,
    }
}

/// The raise of an inserted edge, which may have an end of its own.
fn raise_for(
    clock: &WindowClock,
    now: u64,
    id: Option<EdgeId>,
    time: u64,
    until: Option<u64>,
) -> Option<Change>
    requires now { now ≡ clock.now.clock }
    requires time { time ≤ 2 ^ 62 - 1 }
    ensures { (names : List (List ℕ)) (dfa : DfaValue) (edge : EdgeTaken) →
        IsEdgeFor names dfa (Insert edge until) id →
        Suits names dfa clock.now time (Insert edge until) result }
{
    match id {
        None => None,
        Some(edge) => {
            let value = clock.entry_deadline(time, until);
            if value > now {
                Some(Change::Raise { edge, value })
            } else {
                None
            }
        }
    }
}

/// The removal of a deleted edge.
fn remove_for(id: Option<EdgeId>) -> Option<Change>
    ensures { (names : List (List ℕ)) (dfa : DfaValue) (edge : EdgeTaken) →
        IsEdgeFor names dfa (Delete edge) id →
        (clock : ClockValue) (time : ℕ) → Suits names dfa clock time (Delete edge) result }
{
    match id {
        Some(edge) => Some(Change::Remove(edge)),
        None => None,
    }
}
