//! The engine.

ghost use Rattle.std.specs.Prelude.{◌≡◌, ◌≢◌, ◌≤◌, ◌<◌, ◌+◌, ◌^◌, ◌↔◌, ◌∷◌, [], List, true, false};
ghost use Rattle.std.specs.Prelude.{length, map, Err, IfOk, IfErr, OnErr, OnOk, Some};
ghost use Rattle.std.specs.Prelude.{slice_get};
ghost use Rattle.std.specs.List.{AllZip};
ghost use Rattle.rpq_base.specs.declared.data.Entry.{Entry as EntryTaken};
ghost use Rattle.rpq_model.specs.Query.{path_query};
ghost use Rattle.rpq_model.specs.Window.{clock};
ghost use Rattle.answer_view.specs.View.{AreRowsOf};
ghost use Rattle.end_events.specs.Named.{named_lists, HaveAllNames};
ghost use Rattle.query_file.specs.Compiled.{CompiledValue};
ghost use Rattle.query_index.specs.Index.{IsForestFor};
ghost use Rattle.query_index.specs.Paths.{ShowsPair};
ghost use Rattle.path_engine.specs.Engine.{StandsFor, definitions, forests};
ghost use Rattle.path_engine.specs.Feeding.{Feeds, FeedsFront, Spends};
ghost use Rattle.path_engine.specs.Views.{IsViewAt};
ghost use Rattle.path_engine.specs.declared.fault.FeedFault.{FeedFault as WhyNot};

use crate::ends::ends_for_all;
use crate::fault::FeedFault;
use crate::front::{answer_by_query, cost_of_all, told_in};
use crate::indexes::indexes_of;
use crate::labels::{LabelTable, table_of};
use crate::rebuilding::feed_all;
use crate::refreshing::refresh_all;
use crate::showing::rows_of_each;
use answer_rows::Rows;
use answer_view::View;
use delta_forest::Forest;
use end_events::{NumberedEvent, name_lists};
use name_table::Names;
use query_file::Compiled;
use query_index::{Crew, QueryIndex, more_names_keep_indexes};
use rpq_base::{Edge, Entry, Event, Memory, Name, Workers};
use run_context::{Context, Gate};
use std::alloc::Global;
use std::marker::Model;
use std::random::RandomSource;
use std::slice::from_ref;
use std::sync::Arc;
use std::thread::Threads;

/// Some queries over a history that grows by one entry at a time. Queries are numbered from 0.
///
/// Contracts see its queries, the number of entries that it was fed since it was made or rebuilt,
/// whether it is spent, and what it keeps of the history, of which only `StandsFor` speaks. Where
/// memory runs out, it is spent, and answers no entry until it is rebuilt.
pub struct Engine {
    alloc: Global,
    queries: Vec<Compiled>,
    /// The labels of the queries, with their numbers.
    labels: LabelTable,
    /// The number of entries that were fed since the engine was made or rebuilt.
    position: u64,
    /// Whether an entry was begun and not answered to its end.
    spent: bool,
    /// The names of the vertices, with their numbers.
    names: Names,
    /// How many names have numbers.
    named: u32,
    /// For each query its index.
    indexes: Vec<QueryIndex>,
    /// What each query took of the last front: by it the queries of the next one are dealt to the
    /// workers. No clause speaks of it, since it decides time alone.
    costs: Vec<u64>,
    /// What the queries took since the last view: by it workers share out the next one. No clause
    /// speaks of it either.
    unseen: u64,
}

impl Drop for Engine {
    fn drop(self) {
        let Engine {
            alloc: _alloc,
            queries: _queries,
            labels: _labels,
            position: _position,
            spent: _spent,
            names: _names,
            named: _named,
            indexes: _indexes,
            costs: _costs,
            unseen: _unseen,
        } = self;
    }
}

impl Model for Engine {
    ghost use Rattle.std.specs.Coded.{codes};
    ghost use Rattle.query_file.specs.CompiledCode.{compiled_code};
    ghost use Rattle.path_engine.specs.Engine.{EngineValue};
    ghost use Rattle.path_engine.specs.Sound.{IsSound};

    ghost Value = { EngineValue };

    ghost coded = { Prim.hlevel (codes, compiled_code) };

    ghost view = { λ engine. record {
      queries = engine.queries.items;
      position = engine.position;
      spent = engine.spent;
      names = engine.names;
      indexes = engine.indexes.items;
    } };

    ghost invariant = { λ engine. IsSound (record {
      queries = engine.queries.items;
      position = engine.position;
      spent = engine.spent;
      names = engine.names;
      indexes = engine.indexes.items;
    }) engine.named engine.labels };
}

impl Engine {
    /// An engine of these queries, which stands for the empty history. It takes memory from the
    /// allocator, also later. The only error is [`Memory`].
    pub fn new<R: RandomSource>(
        rt: &R,
        alloc: Global,
        queries: Vec<Compiled>,
    ) -> Result<Engine, Memory>
        requires some { 1 ≤ length queries.items }
        requires few { length queries.items ≤ 64 }
        ensures queries { IfOk result (λ engine. engine.queries ≡ queries.items) }
        ensures stands { IfOk result (λ engine. StandsFor engine []) }
    {
        let indexes = indexes_of(alloc, &queries)?;
        let names = Names::new(rt, alloc)?;
        let labels = table_of(alloc, &queries)?;
        Ok(Engine {
            alloc,
            queries,
            labels,
            position: 0,
            spent: false,
            names,
            named: 0,
            indexes,
            costs: Vec::new(alloc),
            unseen: 0,
        })
    }

    /// Answers one more entry: the events that it brings, those of the first query, then those of
    /// the next, by at most this many workers, which pass the gate.
    ///
    /// The errors are [`FeedFault::Memory`], after which the engine is spent, and
    /// [`FeedFault::Spent`] at each call after it, which changes nothing, until the engine is
    /// rebuilt. It is [`Engine::feed_front`] with a front of one entry, and costs what the entry
    /// changes in the forest of each query; the workers share large changes alone.
    pub fn feed<R: Threads + Sync, G: Gate>(
        &mut self,
        context: &Context<'_, R, G>,
        entry: &Entry,
        workers: Workers,
    ) -> Result<Vec<Event>, FeedFault>
        requires short { self.old.position < 2 ^ 30 }
        ensures feeds { IfOk result (λ events.
            Feeds self.old entry.now self.new events.items) }
        ensures queries { self.new.queries ≡ self.old.queries }
        ensures memory { IfErr result (λ fault. fault ≢ WhyNot.Spent
            → Spends self.old self.new) }
        ensures spent { (result ≡ Err WhyNot.Spent) ↔ (self.old.spent ≡ true) }
        ensures unchanged { result ≡ Err WhyNot.Spent → self.new ≡ self.old }
    {
        let _spent = self.spent; // read for what the engine keeps
        let lists = self.feed_front(context, from_ref(entry), workers)?;
        Ok(only_of(lists))
    }

    /// Answers some more entries, a front, as [`Engine::feed`] would one after another: the events
    /// that each entry brings, by at most this many workers, which pass the gate.
    ///
    /// The errors are those of [`Engine::feed`], and after [`FeedFault::Memory`] no entry of the
    /// front counts as answered. It is [`Engine::feed_numbered`], whose events are then given
    /// copies of their names.
    pub fn feed_front<R: Threads + Sync, G: Gate>(
        &mut self,
        context: &Context<'_, R, G>,
        entries: &[Entry],
        workers: Workers,
    ) -> Result<Vec<Vec<Event>>, FeedFault>
        requires short { self.old.position + length entries.now ≤ 2 ^ 30 }
        ensures feeds { IfOk result (λ events. FeedsFront self.old entries.now self.new
            (map (λ own. own.items) events.items)) }
        ensures queries { self.new.queries ≡ self.old.queries }
        ensures memory { IfErr result (λ fault. fault ≢ WhyNot.Spent
            → Spends self.old self.new) }
        ensures spent { (result ≡ Err WhyNot.Spent) ↔ (self.old.spent ≡ true) }
        ensures unchanged { result ≡ Err WhyNot.Spent → self.new ≡ self.old }
    {
        let position = self.position;
        let lists = self.feed_numbered(context, entries, workers)?;
        match name_lists(self.alloc, &self.names, &lists) {
            Ok(events) => Ok(events),
            Err(memory) => {
                self.spend_at(position);
                Err(FeedFault::Memory(memory))
            }
        }
    }

    /// [`Engine::feed_front`], but that the events of each entry are told by the numbers that the
    /// names of their pairs have in [`Engine::names`].
    ///
    /// All names that the front brings get their numbers before a query takes the first entry, and
    /// keep them as long as the engine isn't rebuilt. It costs what the entries change in the
    /// forest of each query. Where there is more than one of queries, entries and workers, the
    /// queries are dealt to the workers by what each took of the front before, and a worker takes
    /// the whole front into its queries. It passes the gate first. Else the workers share large
    /// changes, as in [`Engine::feed`].
    pub fn feed_numbered<R: Threads + Sync, G: Gate>(
        &mut self,
        context: &Context<'_, R, G>,
        entries: &[Entry],
        workers: Workers,
    ) -> Result<Vec<Vec<NumberedEvent>>, FeedFault>
        requires short { self.old.position + length entries.now ≤ 2 ^ 30 }
        ensures feeds { IfOk result (λ lists. FeedsFront self.old entries.now self.new
            (named_lists self.new.names lists.items)) }
        ensures have_names { IfOk result (λ lists. HaveAllNames self.new.names lists.items) }
        ensures queries { self.new.queries ≡ self.old.queries }
        ensures memory { IfErr result (λ fault. fault ≢ WhyNot.Spent
            → Spends self.old self.new) }
        ensures spent { (result ≡ Err WhyNot.Spent) ↔ (self.old.spent ≡ true) }
        ensures unchanged { result ≡ Err WhyNot.Spent → self.new ≡ self.old }
    {
        let lists = self.answer_entries(context, entries, workers)?;
        self.note_front(told_in(&lists));
        Ok(lists)
    }

    /// [`Engine::feed_numbered`], but for the count of the events that were told.
    fn answer_entries<R: Threads + Sync, G: Gate>(
        &mut self,
        context: &Context<'_, R, G>,
        entries: &[Entry],
        workers: Workers,
    ) -> Result<Vec<Vec<NumberedEvent>>, FeedFault>
        requires short { self.old.position + length entries.now ≤ 2 ^ 30 }
        ensures feeds { IfOk result (λ lists. FeedsFront self.old entries.now self.new
            (named_lists self.new.names lists.items)) }
        ensures have_names { IfOk result (λ lists. HaveAllNames self.new.names lists.items) }
        ensures queries { self.new.queries ≡ self.old.queries }
        ensures memory { IfErr result (λ fault. fault ≢ WhyNot.Spent
            → Spends self.old self.new) }
        ensures spent { (result ≡ Err WhyNot.Spent) ↔ (self.old.spent ≡ true) }
        ensures unchanged { result ≡ Err WhyNot.Spent → self.new ≡ self.old }
    {
        if self.spent {
            return Err(FeedFault::Spent);
        }
        more_names_keep_indexes(); // called for its clause
        self.spent = true; // until all entries are answered to their end
        let ends = ends_for_all(
            context.alloc,
            &mut self.names,
            &mut self.named,
            &self.labels,
            entries,
        )?;
        let crew = Crew { context, workers };
        let events = answer_by_query(
            &crew,
            &self.queries,
            &mut self.indexes,
            &mut self.costs,
            &self.names,
            &ends,
            entries,
        )?;
        self.position += entries.len() as u64;
        self.spent = false;
        Ok(events)
    }

    /// Evaluates these entries from nothing, whatever the engine stood for before, and also where
    /// it was spent: it stands for just these entries afterwards. At most this many workers do it,
    /// and they pass the gate.
    ///
    /// What the engine held is given back first, so that there is memory for what comes. The only
    /// error is [`Memory`], after which the engine is spent, at the position that it had. It costs
    /// what feeding the entries costs. The events that they bring are dropped, front by front.
    pub fn rebuild<R: Threads + Sync, G: Gate>(
        &mut self,
        context: &Context<'_, R, G>,
        entries: &[Entry],
        workers: Workers,
    ) -> Result<(), Memory>
        requires short { length entries.now ≤ 2 ^ 30 }
        ensures stands { OnOk result (StandsFor self.new entries.now) }
        ensures position { OnOk result (self.new.position ≡ length entries.now) }
        ensures queries { self.new.queries ≡ self.old.queries }
        ensures memory { OnErr result (Spends self.old self.new) }
    {
        let position = self.position;
        match self.evaluate(context, entries, workers) {
            Ok(()) => Ok(()),
            Err(memory) => {
                self.spend_at(position);
                Err(memory)
            }
        }
    }

    /// [`Engine::rebuild`], but for the position of an engine that is spent by it.
    fn evaluate<R: Threads + Sync, G: Gate>(
        &mut self,
        context: &Context<'_, R, G>,
        entries: &[Entry],
        workers: Workers,
    ) -> Result<(), Memory>
        requires short { length entries.now ≤ 2 ^ 30 }
        ensures stands { OnOk result (StandsFor self.new entries.now) }
        ensures position { OnOk result (self.new.position ≡ length entries.now) }
        ensures queries { self.new.queries ≡ self.old.queries }
    {
        self.start_anew()?;
        feed_all(self, context, entries, workers)
    }

    /// Gives back what the engine held, and makes it stand for the empty history.
    fn start_anew(&mut self) -> Result<(), Memory>
        ensures stands { OnOk result (StandsFor self.new []) }
        ensures position { OnOk result (self.new.position ≡ 0) }
        ensures queries { self.new.queries ≡ self.old.queries }
    {
        self.spent = true; // until there are new indexes
        self.indexes = Vec::new(self.alloc);
        self.names.clear();
        self.named = 0;
        self.unseen = 0;
        self.indexes = indexes_of(self.alloc, &self.queries)?;
        self.position = 0;
        self.spent = false;
        Ok(())
    }

    /// Spends the engine, which counts this many entries as fed then.
    fn spend_at(&mut self, position: u64)
        requires short { position ≤ 2 ^ 30 }
        ensures spent { self.new.spent ≡ true }
        ensures position { self.new.position ≡ position }
        ensures queries { self.new.queries ≡ self.old.queries }
    {
        self.position = position;
        self.spent = true;
    }

    /// Counts the events that were told, for the ranks of the names, and what a front cost, for the
    /// workers of the next view.
    fn note_front(&mut self, events: usize)
        ensures { self.new ≡ self.old }
    {
        self.names.note_told(events);
        self.unseen = self.unseen.saturating_add(cost_of_all(&self.costs));
    }

    /// Notes that all changes so far are shown.
    fn note_shown(&mut self)
        ensures { self.new ≡ self.old }
    {
        self.unseen = 0;
    }

    /// The queries, in the order of their numbers.
    pub fn queries(&self) -> &[Compiled]
        ensures { result.now ≡ self.now.queries }
    {
        &self.queries
    }

    /// Whether memory ran out in a call before, so that no entry is answered until the engine is
    /// rebuilt.
    pub fn is_spent(&self) -> bool
        ensures { result ≡ self.now.spent }
    {
        self.spent
    }

    /// The number of entries that were fed since the engine was made or rebuilt.
    pub fn position(&self) -> u64
        ensures { result ≡ self.now.position }
    {
        self.position
    }

    /// The clock of the history and the answers of each query with their ends, as those at this
    /// position: it is the caller who knows how long the history is for which the engine stands. The
    /// only error is [`Memory`], and the engine goes on after it.
    ///
    /// The view shares its rows with the views before it. For each vertex whose tree was touched
    /// since the last one it goes through that tree, and puts the targets there in the order of
    /// their names. The first view goes through all trees, and one after an error may do so. An
    /// engine that shows views before its first name alone keeps no rows, and pays nothing for
    /// them. [`Engine::refresh`] before it has several workers do most of this.
    pub fn view(&mut self, position: u64) -> Result<Arc<View>, Memory>
        requires unspent { self.old.spent ≡ false }
        ensures view { (history : List EntryTaken) → StandsFor self.old history →
            IfOk result (λ view. IsViewAt position (definitions self.old) history view.value) }
        ensures stands { (history : List EntryTaken) → StandsFor self.old history →
            StandsFor self.new history }
        ensures queries { self.new.queries ≡ self.old.queries }
        ensures position { self.new.position ≡ self.old.position }
        ensures spent { self.new.spent ≡ self.old.spent }
        ensures names { self.new.names ≡ self.old.names }
        ensures forests { forests self.new ≡ forests self.old }
    {
        let alloc = self.alloc;
        let clock = self.clock();
        let rows = self.rows()?;
        self.note_shown();
        View::new(alloc, position, clock, rows)
    }

    /// Brings the rows up to date that views share, by at most this many workers, which pass the
    /// gate, and so makes the next view cheap. It does nothing where one worker is enough: there is
    /// a further one for each [`trees_per_worker`](Gate::trees_per_worker) of what the entries cost
    /// since the last view. Each worker has some of the queries. Where memory runs out, the next
    /// view makes the rows.
    pub fn refresh<R: Threads + Sync, G: Gate>(
        &mut self,
        context: &Context<'_, R, G>,
        workers: Workers,
    )
        requires unspent { self.old.spent ≡ false }
        ensures stands { (history : List EntryTaken) → StandsFor self.old history →
            StandsFor self.new history }
        ensures queries { self.new.queries ≡ self.old.queries }
        ensures position { self.new.position ≡ self.old.position }
        ensures spent { self.new.spent ≡ self.old.spent }
        ensures names { self.new.names ≡ self.old.names }
        ensures forests { forests self.new ≡ forests self.old }
    {
        let crew = Crew { context, workers };
        refresh_all(
            &crew,
            self.unseen,
            &self.queries,
            &mut self.indexes,
            &self.names,
            self.named,
        );
    }

    /// The clock of the history, which is the same in the index of each query.
    fn clock(&self) -> u64
        requires unspent { self.now.spent ≡ false }
        ensures { (history : List EntryTaken) → StandsFor self.now history →
            result ≡ clock history }
    {
        self.indexes[0].clock()
    }

    /// The answers of each query, as rows.
    fn rows(&mut self) -> Result<Vec<Rows>, Memory>
        requires unspent { self.old.spent ≡ false }
        ensures rows { (history : List EntryTaken) → StandsFor self.old history →
            IfOk result (λ rows. AllZip (λ query own. AreRowsOf (path_query query.def) history own)
            self.old.queries rows.items) }
        ensures stands { (history : List EntryTaken) → StandsFor self.old history →
            StandsFor self.new history }
        ensures queries { self.new.queries ≡ self.old.queries }
        ensures position { self.new.position ≡ self.old.position }
        ensures spent { self.new.spent ≡ self.old.spent }
        ensures names { self.new.names ≡ self.old.names }
        ensures forests { forests self.new ≡ forests self.old }
    {
        rows_of_each(
            self.alloc,
            &self.queries,
            &mut self.indexes,
            &self.names,
            self.named,
        )
    }

    /// The forest of the query with this number.
    pub fn forest(&self, q: u32) -> &Forest
        requires unspent { self.now.spent ≡ false }
        requires some { q < length self.now.queries }
        ensures forest { slice_get (forests self.now) q ≡ Some result.now }
        ensures stands { (history : List EntryTaken) → StandsFor self.now history →
            (query : CompiledValue) → slice_get self.now.queries q ≡ Some query →
            IsForestFor query history self.now.names result.now }
    {
        let query = &self.queries[q as usize];
        let index = &self.indexes[q as usize];
        index.forest(query)
    }

    /// A path that shows the pair of these two vertices as an answer of the query with this number,
    /// or none where the pair is no answer. Its edges are in the query's window, its word is in the
    /// query's language, and the least of their deadlines is the end of the answer. It may visit a
    /// vertex twice, also where the query takes simple paths. The only error is [`Memory`]. This
    /// costs a look-up for each state of the automaton and for each edge of the path.
    pub fn best_path(&self, q: u32, x: &Name, y: &Name) -> Result<Option<Vec<Edge>>, Memory>
        requires unspent { self.now.spent ≡ false }
        requires some { q < length self.now.queries }
        ensures { IfOk result (λ found. (history : List EntryTaken) → StandsFor self.now history →
            (query : CompiledValue) → slice_get self.now.queries q ≡ Some query →
            ShowsPair query.def history (record { from = x.now; to = y.now }) found) }
    {
        let query = &self.queries[q as usize];
        let index = &self.indexes[q as usize];
        index.best_path(self.alloc, query, &self.names, x, y)
    }

    /// The names of the vertices, with their numbers.
    pub fn names(&self) -> &Names
        ensures { result.now ≡ self.now.names }
    {
        &self.names
    }
}

/// The only one of these lists.
fn only_of(mut lists: Vec<Vec<Event>>) -> Vec<Event>
    requires one { length lists.items ≡ 1 }
    ensures { map (λ own. own.items) lists.items ≡ result.items ∷ [] }
{
    match lists.pop() {
        Some(own) => own,
        None => unreachable!(),
    }
}
