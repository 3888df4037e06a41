//! The entries of the history, front after front.

ghost use Rattle.std.specs.Prelude.{◌≡◌, ◌+◌, ◌<◌, ◌≤◌, ◌-◌, ◌++◌, [], take, drop, length};
ghost use Rattle.std.specs.Prelude.{IsTrue, IfOk, OnOk, OnErr};
ghost use Rattle.entry_steps.specs.Evaluator.{EvaluatorValue};
ghost use Rattle.history_model.specs.Lines.{entries, AllEnded};
ghost use Rattle.stream_history.specs.History.{IsFeedingPass, HasSeen};
ghost use Rattle.stream_history.specs.Journal.{KeepsAll};
ghost use Rattle.engine_loop.specs.Sources.{Repeats};
ghost use Rattle.rpq_threads.specs.Entries.{MayFeed, StaysSo, IsEmptied, IsToldOf};
ghost use Rattle.rpq_threads.specs.Entries.{entries_seen, given_by, front_of, kept_by, begun_by};
ghost use Rattle.rpq_threads.specs.Past.{PastIsNew, window_of};

use crate::past::Past;
use engine_loop::{AfterShrink, EntrySource, StepSink};
use entry_steps::{Evaluator, entries_stand_in};
use rpq_base::{Entry, Memory};
use rpq_model::QueryDef;
use saved_window::{saved_keeps_the_store, saved_of_more};
use std::alloc::Global;
use std::sync::Wait;
use stream_history::{Front, History, Pass, PublishFault};

/// The entries of the history, as the engine's pass sees them. It asks for up to 256 at once, and
/// gives as many of these at a time as the evaluator takes.
#[derive(Drop)]
pub struct HistoryEntries<'a, R> {
    rt: &'a R,
    alloc: Global,
    history: &'a History,
    pass: Pass,
    /// What it gave before that.
    past: Past<'a>,
    /// What the history gave last.
    buffer: Vec<Entry>,
    /// Where the last front begins and ends in it.
    from: usize,
    to: usize,
    /// How many entries were given, up to the end of that front.
    count: u64,
    /// How many of these were shown to the history's readers, or all if it has none.
    shown: u64,
    /// How many entries the history had when it was asked last.
    known: u64,
}

impl<'a, R> HistoryEntries<'a, R> {
    /// No entry was given yet. Takes no memory.
    pub fn new(
        rt: &'a R,
        alloc: Global,
        history: &'a History,
        queries: &'a [QueryDef],
        pass: Pass,
    ) -> HistoryEntries<'a, R>
        ensures history { result.history.now ≡ history.now }
        ensures pass { result.pass ≡ pass }
        ensures past { PastIsNew history.now.terms queries.now result.past }
        ensures none { (result.buffer.items ≡ []) × (result.from ≡ 0) × (result.to ≡ 0)
            × (result.count ≡ 0) × (result.shown ≡ 0) × (result.known ≡ 0) }
    {
        HistoryEntries {
            rt,
            alloc,
            history,
            pass,
            past: Past::new(alloc, history, queries),
            buffer: Vec::new(alloc),
            from: 0,
            to: 0,
            count: 0,
            shown: 0,
            known: 0,
        }
    }

    /// The engine's pass, and what was kept in the place of the history, if the history didn't keep
    /// it.
    pub fn into_parts(self) -> (Pass, Option<Vec<Entry>>)
        ensures pass { result.0 ≡ self.entry.pass }
        ensures window { result.1 ≡ window_of self.entry.past }
    {
        let HistoryEntries {
            rt: _,
            alloc: _,
            history: _,
            pass,
            past,
            buffer: _,
            from: _,
            to: _,
            count: _,
            shown: _,
            known: _,
        } = self;
        (pass, past.into_window())
    }

    /// How many entries were given before the last front.
    fn count_before(&self) -> u64
        requires order { self.now.from ≤ self.now.to }
        requires counted { self.now.to - self.now.from ≤ self.now.count }
        ensures { result ≡ self.now.count - (self.now.to - self.now.from) }
    {
        self.count - (self.to - self.from) as u64
    }

    /// Whether the view of what was given may be put off: no reader asked since the last one, it
    /// lags no further behind than the history allows, and more entries are there, so that the
    /// engine won't sleep before it comes here again.
    fn may_put_off(&self) -> bool
        ensures { IsTrue result → (self.now.count < self.now.known)
            × (self.now.count ≤ self.now.shown + self.now.history.now.lag) }
    {
        self.count < self.known
            && self.count.saturating_sub(self.shown) <= self.history.lag()
            && !self.history.is_view_wanted(self.count)
    }
}

impl<R: Wait> HistoryEntries<'_, R> {
    /// Puts what was given last behind what was given before it, if nothing of what the history
    /// gave is left. A history that forgets may then forget all of it that its readers were shown.
    /// The only error is [`Memory`].
    fn settle(&mut self) -> Result<(), Memory>
        requires feeds { (evaluator : EvaluatorValue) × MayFeed self.old evaluator
            × (evaluator.position ≡ self.old.count) }
        requires none_left { drop self.old.to self.old.buffer.items ≡ [] }
        ensures history { self.new.history.now ≡ self.old.history.now }
        ensures count { self.new.count ≡ self.old.count }
        ensures given { given_by self.new ≡ given_by self.old }
        ensures feeds { (evaluator : EvaluatorValue) → MayFeed self.old evaluator
            → evaluator.position ≡ self.old.count → MayFeed self.new evaluator }
        ensures kept { OnOk result (kept_by self.new ≡ kept_by self.old ++ front_of self.old) }
        ensures empty { OnOk result (IsEmptied self.new) }
        ensures err { OnErr result ((kept_by self.new ≡ kept_by self.old)
            × (front_of self.new ≡ front_of self.old)) }
    {
        if self.buffer.is_empty() {
            return Ok(());
        }
        self.past.take(&mut self.buffer)?;
        self.from = 0;
        self.to = 0;
        if !self.history.keeps_all() {
            self.history.forget(self.rt, &mut self.pass, self.shown);
        }
        Ok(())
    }

    /// Asks the history for what comes next, where all that it gave before was given on. The only
    /// error is [`Memory`].
    fn fill(&mut self) -> Result<(), Memory>
        requires { (evaluator : EvaluatorValue) × MayFeed self.old evaluator
            × (evaluator.position ≡ self.old.count) }
        ensures history { self.new.history.now ≡ self.old.history.now }
        ensures count { self.new.count ≡ self.old.count }
        ensures given { given_by self.new ≡ given_by self.old }
        ensures feeds { (evaluator : EvaluatorValue) → MayFeed self.old evaluator
            → evaluator.position ≡ self.old.count → MayFeed self.new evaluator }
        ensures kept { OnOk result (begun_by self.new ≡ kept_by self.old ++ front_of self.old) }
        ensures ended { OnOk result (drop self.new.to self.new.buffer.items ≡ []
            → IsEmptied self.new × AllEnded self.new.history.now.terms.streams self.new.pass.seen
            × (self.new.count ≡ length (entries self.new.pass.seen))) }
    {
        if self.to < self.buffer.len() {
            return Ok(());
        }
        self.settle()?;
        let (more, known) = hear_more(
            self.rt,
            self.alloc,
            self.history,
            &mut self.pass,
            self.count,
        )?;
        self.buffer = more;
        self.known = known;
        Ok(())
    }

    /// Copies of the entries of the history behind so many first ones, at most 256 and only those
    /// that were given before the last front. The only error is [`Memory`].
    fn copied_from_history(&mut self, from: u64) -> Result<Vec<Entry>, Memory>
        requires feeds { (evaluator : EvaluatorValue) × MayFeed self.old evaluator }
        requires keeps_all { KeepsAll self.old.history.now.terms }
        requires within { from < self.old.count - (self.old.to - self.old.from) }
        ensures stays { StaysSo self.old self.new }
        ensures repeats { IfOk result (λ entries. Repeats
            (take (self.old.count - (self.old.to - self.old.from)) (entries_seen self.old))
            from entries.items) }
    {
        let before = self.count_before();
        match self
            .history
            .after(self.rt, self.alloc, &mut self.pass, from)?
        {
            Some(front) => {
                let mut entries = front.entries;
                entries.truncate((before - from) as usize);
                Ok(entries)
            }
            None => unreachable!(),
        }
    }
}

impl<R: Wait> EntrySource for HistoryEntries<'_, R> {
    type Home = History;

    ghost home = { λ source. source.history.now };

    ghost given = { λ source. given_by source };

    ghost front = { λ source. front_of source };

    ghost kept = { λ source. kept_by source };

    ghost feeds = { λ source evaluator. MayFeed source evaluator };

    ghost is_over = { λ source. AllEnded source.history.now.terms.streams source.pass.seen
        × (source.count ≡ length (entries source.pass.seen)) × IsEmptied source };

    /// Gives the next entries of the history, and sleeps until it has some, unless all streams have
    /// ended.
    fn next<K: StepSink>(&mut self, evaluator: &Evaluator, _sink: &K) -> Result<bool, Memory> {
        self.fill()?;
        let more = evaluator.at_once().min(self.buffer.len() - self.to);
        self.from = self.to;
        self.to += more;
        self.count += more as u64;
        Ok(0 < more)
    }

    fn front(&self) -> &[Entry] {
        part_of(&self.buffer, self.from, self.to)
    }

    fn kept_count(&self) -> u64 {
        match &self.past {
            Past::InHistory => self.count_before(),
            Past::Kept(window) => window.entries.len() as u64 + self.from as u64,
        }
    }

    fn again(&mut self, from: u64) -> Result<Vec<Entry>, Memory> {
        match &self.past {
            Past::InHistory => self.copied_from_history(from),
            Past::Kept(window) => {
                let begun = part_of(&self.buffer, 0, self.from);
                window.copied_behind(from, begun)
            }
        }
    }

    fn shrink(&mut self, _evaluator: &Evaluator) -> Result<AfterShrink, Memory> {
        saved_keeps_the_store(); // these are called for their clauses
        saved_of_more();
        entries_stand_in();
        if self.to < self.buffer.len() {
            return Ok(AfterShrink::GoOn);
        }
        self.settle()?;
        Ok(self.past.shrink())
    }

    fn wants_view(&self) -> bool {
        self.history.readers() > 0 && !self.may_put_off()
    }

    /// Publishes the answers over all entries that were answered, if the history has readers, or
    /// puts that off.
    fn publish<K: StepSink>(&mut self, evaluator: &mut Evaluator, _sink: &K) -> Result<(), Memory> {
        if self.history.readers() == 0 {
            self.shown = self.count;
            return Ok(());
        }
        if self.may_put_off() {
            return Ok(());
        }
        let view = evaluator.view()?;
        match self.history.publish(self.rt, &mut self.pass, view) {
            Ok(()) => {
                self.shown = self.count;
                Ok(())
            }
            Err(PublishFault::Memory(memory)) => Err(memory),
            Err(PublishFault::Behind(_)) => unreachable!(),
        }
    }
}

/// The entries behind so many first ones, at most 256, or none if all streams have ended, and how
/// many entries there are. It sleeps until there are some. The only error is [`Memory`].
fn hear_more<R: Wait>(
    rt: &R,
    alloc: Global,
    history: &History,
    pass: &mut Pass,
    count: u64,
) -> Result<(Vec<Entry>, u64), Memory>
    requires feeds { IsFeedingPass history.now pass.old }
    requires there { count ≤ length (entries pass.old.seen) }
    requires told { 0 < history.now.readers → IsToldOf history.now pass.old count }
    ensures seen { HasSeen history.now pass.old pass.new }
    ensures more { IfOk result (λ heard.
        heard.0.items ≡ take 256 (drop count (entries pass.new.seen))) }
    ensures known { IfOk result (λ heard. heard.1 ≡ length (entries pass.new.seen)) }
    ensures ended { IfOk result (λ heard. heard.0.items ≡ []
        → AllEnded history.now.terms.streams pass.new.seen) }
{
    for _ in rt.forever() {
        let Some(front) = history.after(rt, alloc, pass, count)? else {
            // It never comes to this: the engine alone makes the history forget, and no more than
            // it asked for before. No clause says so.
            return Err(Memory);
        };
        let Front {
            entries,
            length,
            all_ended,
            heard,
        } = front;
        if all_ended || !entries.is_empty() {
            return Ok((entries, length));
        }
        history.sleep_until_entries(rt, pass, heard, count);
    }
    unreachable!()
}

/// The entries from one place to another, of those that are there.
fn part_of(entries: &[Entry], from: usize, to: usize) -> &[Entry]
    ensures { result.now ≡ drop from (take to entries.now) }
{
    let first = &entries[..to.min(entries.len())];
    &first[from.min(first.len())..]
}
