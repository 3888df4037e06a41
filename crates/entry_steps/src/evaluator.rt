//! An engine, and beside it what is told of its events.

ghost use Rattle.std.specs.Prelude.{◌≡◌, ◌<◌, ◌≤◌, ◌+◌, ◌^◌, true, false, List, [], length, map};
ghost use Rattle.std.specs.Prelude.{IfOk, OnOk, OnErr};
ghost use Rattle.rpq_base.specs.declared.data.Entry.{Entry as EntryTaken};
ghost use Rattle.two_way.specs.TwoWay.{walked};
ghost use Rattle.entry_steps.specs.Evaluator.{IsNew, IsFedOver, StandsAfter, StandsInFor, Finds};
ghost use Rattle.entry_steps.specs.Evaluator.{IsAhead, Tells, KeepsSetup, OnlyFeeds, IsToldBy};
ghost use Rattle.entry_steps.specs.Evaluator.{IsViewAfter};
ghost use Rattle.entry_steps.specs.Evaluator.{compiled_of, queries_of, steps_told};
ghost use Rattle.entry_steps.specs.Joining.{HaveJoins};
ghost use Rattle.entry_steps.specs.Showing.{HaveMarks};
ghost use Rattle.entry_steps.specs.Steps.{AreEvaluable, HaveSoundJoins};

use crate::options::Options;
use crate::room::room_for;
use crate::step::Step;
use crate::steps::{steps_of, tell_of};
use crate::unnamed_steps::UnnamedSteps;
use answer_view::View;
use engine_feed::{EventLists, feed_entries};
use join_bindings::Joins;
use path_engine::{Engine, stands_for_alike};
use path_witness::Marks;
use query_file::Compiled;
use rpq_base::{Entry, Memory, Workers};
use rpq_model::QueryDef;
use run_context::{Context, Gate};
use std::alloc::Global;
use std::marker::Model;
use std::random::RandomSource;
use std::sync::Arc;
use std::thread::Threads;

/// The most entries that are answered at once.
const AT_ONCE: usize = 256;

/// What finds the steps of the entries of a history: an engine, and beside it what is told of its
/// events. A front of entries is fed to the engine first, and then brings its steps, so that an
/// engine for which memory ran out can be fed anew before anything was told.
pub struct Evaluator {
    engine: Engine,
    /// How the queries are evaluated, and what is told of them. Where they may take edges
    /// backwards, the engine is fed each entry with its inverse.
    options: Options,
    /// The live entries of each edge that last longest, where paths are told.
    marks: Option<Marks>,
    /// The joins with the answers of their queries, where there are any.
    joins: Option<Joins>,
    /// How many entries the history has for which the engine stands. The engine's own position
    /// counts what it was fed since it was last rebuilt, which may be other entries, and their
    /// inverses too.
    position: u64,
    /// How many workers the engine has.
    workers: Workers,
}

impl Drop for Evaluator {
    fn drop(self) {
        let Evaluator {
            engine: _engine,
            options: _options,
            marks: _marks,
            joins: _joins,
            position: _position,
            workers: _workers,
        } = self;
    }
}

impl Model for Evaluator {
    ghost use Rattle.std.specs.Coded.{codes};
    ghost use Rattle.query_file.specs.CompiledCode.{compiled_code};
    ghost use Rattle.rpq_model.specs.QueryCode.{query_code};
    ghost use Rattle.entry_steps.specs.Evaluator.{EvaluatorValue};

    ghost Value = { EvaluatorValue };

    ghost coded = { Prim.hlevel (codes, compiled_code, query_code) };

    ghost view = { λ evaluator. record {
      engine = evaluator.engine;
      options = evaluator.options;
      marks = evaluator.marks;
      joins = evaluator.joins;
      position = evaluator.position;
      workers = evaluator.workers;
    } };
}

impl Evaluator {
    /// An evaluator of the queries, which have these definitions, with at most this many workers.
    /// No entry has come yet. The only error is [`Memory`].
    pub fn new<R: RandomSource>(
        rt: &R,
        alloc: Global,
        queries: Vec<Compiled>,
        definitions: &Arc<Vec<QueryDef>>,
        options: Options,
        workers: Workers,
    ) -> Result<Evaluator, Memory>
        requires some { 1 ≤ length queries.items }
        requires few { length queries.items ≤ 64 }
        requires definitions { definitions.now.value.items ≡ map (λ each. each.def) queries.items }
        requires few_joins { length options.joins ≤ 32 }
        requires sound { HaveSoundJoins (length queries.items) options }
        ensures { IfOk result (IsNew queries.items options workers) }
    {
        let marks = marks_of(rt, alloc, definitions, options.paths)?;
        let joins = joins_of(rt, alloc, definitions, &options)?;
        Ok(Evaluator {
            engine: Engine::new(rt, alloc, queries)?,
            options,
            marks,
            joins,
            position: 0,
            workers,
        })
    }

    /// How many entries may be fed at once, at the most. Where paths are told it is one, since a
    /// path is told as of its own entry.
    pub fn at_once(&self) -> usize
        ensures some { 1 ≤ result }
        ensures one { self.now.options.paths ≡ true → result ≡ 1 }
    {
        if self.options.paths { 1 } else { AT_ONCE }
    }

    /// How many entries the history has for which the engine stands.
    pub fn position(&self) -> u64
        ensures { result ≡ self.now.position }
    {
        self.position
    }

    /// The queries, in the order of their numbers.
    pub fn queries(&self) -> &[Compiled]
        ensures { result.now ≡ compiled_of self.now }
    {
        self.engine.queries()
    }

    /// Feeds the engine with the entries, each with its inverse where edges may be taken backwards,
    /// and answers the events of each. What is told beside them stays behind until
    /// [`Evaluator::tell`] is called.
    ///
    /// The only error is [`Memory`], after which the engine may stand for anything: it has to start
    /// anew, and be fed all entries again. It is the answer, too, where the engine was fed as many
    /// entries as it takes until it is rebuilt. It costs what the entries cost the engine.
    pub fn find_events<R: Threads + Sync, G: Gate>(
        &mut self,
        context: &Context<'_, R, G>,
        entries: &[Entry],
    ) -> Result<EventLists, Memory>
        requires fed { (history : List EntryTaken) × IsFedOver self.old history }
        requires short { self.old.position + length entries.now < 2 ^ 64 }
        ensures finds { IfOk result (λ found. (history : List EntryTaken)
            → IsFedOver self.old history → Finds history self.new entries.now found) }
        ensures position { OnErr result (self.new.position ≡ self.old.position) }
        ensures keeps { OnlyFeeds self.old self.new }
    {
        room_for(self.engine.position(), entries.len())?;
        let two_way = self.options.two_way;
        let found = feed_entries(&mut self.engine, context, two_way, entries, self.workers)?;
        self.position += entries.len() as u64;
        Ok(found)
    }

    /// The engine gives back what it holds, and starts anew before the first entry. What is told
    /// beside its events stays where it is. The only error is [`Memory`].
    pub fn start_anew<R: Threads + Sync, G: Gate>(
        &mut self,
        context: &Context<'_, R, G>,
    ) -> Result<(), Memory>
        ensures fed { OnOk result (IsFedOver self.new []) }
        ensures keeps { OnlyFeeds self.old self.new }
    {
        self.engine.rebuild(context, &[], self.workers)?;
        self.position = 0;
        Ok(())
    }

    /// Says that the engine stands at this position, which is that of a history in whose place it
    /// was fed other entries. No query can tell one from the other, so the engine stands for the
    /// history.
    pub fn stand_in(&mut self, position: u64)
        requires { (kept history : List EntryTaken) × IsFedOver self.old kept
            × StandsInFor self.old kept history × (position ≡ length history) }
        ensures fed { (kept history : List EntryTaken) → IsFedOver self.old kept
            → StandsInFor self.old kept history → position ≡ length history
            → IsFedOver self.new history }
        ensures keeps { OnlyFeeds self.old self.new }
    {
        stands_for_alike(); // called for its clause
        self.position = position;
    }

    /// What the entries bring that the engine was fed last, of which it found these events: marks
    /// take the entries, and each addition gets a path that shows it; joins take the events of one
    /// entry after another, and tell how their bindings change.
    ///
    /// Where paths are told, edges aren't taken backwards, and there is one entry at most. The only
    /// error is [`Memory`], after which nothing is said of what was told. Names are copied only
    /// where there are marks or joins.
    pub fn tell(
        &mut self,
        alloc: Global,
        entries: &[Entry],
        found: EventLists,
    ) -> Result<UnnamedSteps, Memory>
        requires ahead { (before : List EntryTaken) × IsAhead before self.old entries.now found }
        requires evaluable { AreEvaluable (queries_of self.old) }
        requires forwards { self.old.options.paths ≡ true → self.old.options.two_way ≡ false }
        requires one { self.old.options.paths ≡ true → length entries.now ≤ 1 }
        ensures tells { IfOk result (λ told. (before : List EntryTaken)
            → IsAhead before self.old entries.now found → Tells before self.new entries.now told) }
        ensures keeps { KeepsSetup self.old self.new }
    {
        let _position = self.position; // a number, so one more is left for each of the entries
        let beside = tell_of(
            alloc,
            &self.engine,
            &mut self.marks,
            &mut self.joins,
            entries,
            &found,
        )?;
        Ok(UnnamedSteps { found, beside })
    }

    /// The steps that are told, which have the evaluator's names lent. The only error is
    /// [`Memory`].
    pub fn steps(&self, alloc: Global, told: UnnamedSteps) -> Result<Vec<Step<'_>>, Memory>
        requires { IsToldBy self.now told }
        ensures { IfOk result (λ steps. steps.items ≡ steps_told self.now told) }
    {
        let UnnamedSteps { found, beside } = told;
        let events = found.into_events(alloc, self.engine.names())?;
        steps_of(alloc, events, beside)
    }

    /// The answers of each query with their ends, over all entries. The only error is [`Memory`],
    /// and the evaluator goes on after it. It costs what [`Engine::view`] does.
    /// [`Evaluator::refresh`] before it has the workers do most of this.
    pub fn view(&mut self) -> Result<Arc<View>, Memory>
        requires { (history : List EntryTaken) × StandsAfter self.old history }
        ensures view { (history : List EntryTaken) → StandsAfter self.old history →
            IfOk result (λ view. IsViewAfter self.old history view.value) }
        ensures stands { (history : List EntryTaken) → StandsAfter self.old history →
            StandsAfter self.new history }
        ensures keeps { KeepsSetup self.old self.new }
        ensures position { self.new.position ≡ self.old.position }
    {
        self.engine.view(self.position)
    }

    /// Has the workers bring up to date what views share, where that is worth it, so that the next
    /// view is cheap. It costs what [`Engine::refresh`] does.
    pub fn refresh<R: Threads + Sync, G: Gate>(&mut self, context: &Context<'_, R, G>)
        requires { (history : List EntryTaken) × StandsAfter self.old history }
        ensures stands { (history : List EntryTaken) → StandsAfter self.old history →
            StandsAfter self.new history }
        ensures keeps { KeepsSetup self.old self.new }
        ensures position { self.new.position ≡ self.old.position }
    {
        self.engine.refresh(context, self.workers);
    }
}

/// Marks for queries with these definitions, where paths are told. The only error is [`Memory`].
fn marks_of<R: RandomSource>(
    rt: &R,
    alloc: Global,
    definitions: &Arc<Vec<QueryDef>>,
    paths: bool,
) -> Result<Option<Marks>, Memory>
    ensures { IfOk result (HaveMarks paths definitions.now.value.items []) }
{
    if !paths {
        return Ok(None);
    }
    let own = Arc::try_clone(definitions)?;
    Ok(Some(Marks::new(rt, alloc, own)?))
}

/// The joins over queries with these definitions, which have no pairs yet, where there are any. The
/// only error is [`Memory`].
fn joins_of<R: RandomSource>(
    rt: &R,
    alloc: Global,
    definitions: &[QueryDef],
    options: &Options,
) -> Result<Option<Joins>, Memory>
    requires few_queries { length definitions.now ≤ 64 }
    requires few { length options.now.joins ≤ 32 }
    requires sound { HaveSoundJoins (length definitions.now) options.now }
    ensures { IfOk result (HaveJoins options.now.joins definitions.now
        (walked options.now.two_way [])) }
{
    if options.joins.is_empty() {
        return Ok(None);
    }
    let joins = Arc::try_clone(&options.joins)?;
    let queries = definitions.len() as u32;
    Ok(Some(Joins::new(rt, alloc, joins, queries)?))
}
