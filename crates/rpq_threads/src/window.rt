//! What the engine's thread keeps of a history that forgets.

ghost use Rattle.std.specs.Prelude.{◌≡◌, ◌⊎◌, ◌+◌, ◌<◌, ◌≤◌, ◌++◌, [], length, take, IfOk, OnOk, OnErr};
ghost use Rattle.engine_loop.specs.Sources.{Repeats};
ghost use Rattle.saved_window.specs.Saved.{first_stream, saved};
ghost use Rattle.rpq_threads.specs.Past.{ComesInTurn, DropsFirst, ShrinksTo};

use engine_loop::AfterShrink;
use rpq_base::{Entry, Memory, Tuple, copy_all};
use rpq_model::QueryDef;
use saved_window::{passed, saved, seen_count};
use std::alloc::Global;

/// How many entries come at least before the engine is rebuilt again.
const FRESH: usize = 1 << 16;

/// How many entries come at least before those that all windows have passed are dropped again.
const AT_LEAST: usize = 1 << 12;

/// The most entries that are copied at once for an engine that is rebuilt.
const AT_ONCE: usize = 256;

/// The entries that some query may still see, and others: at most as many as were still seen when
/// it was looked last, and 65,536 more, and a front.
///
/// Who is fed these stands where the whole history led, and the same is saved of them. Contracts
/// see the queries and the entries.
#[derive(Drop)]
pub struct KeptWindow<'a> {
    alloc: Global,
    pub queries: &'a [QueryDef],
    pub entries: Vec<Entry>,
    /// How many entries were dropped since the engine was rebuilt last.
    dropped: usize,
    /// At how many entries those that all windows have passed are dropped.
    full: usize,
    /// At how many entries, with those that were dropped, it is looked whether the engine is to be
    /// rebuilt.
    limit: usize,
}

impl<'a> KeptWindow<'a> {
    /// Nothing yet. Takes no memory.
    pub fn new(alloc: Global, queries: &'a [QueryDef]) -> KeptWindow<'a>
        ensures queries { result.queries.now ≡ queries.now }
        ensures entries { result.entries.items ≡ [] }
    {
        KeptWindow {
            alloc,
            queries,
            entries: Vec::new(alloc),
            dropped: 0,
            full: AT_LEAST,
            limit: FRESH,
        }
    }

    /// Moves more entries behind those that it has. The only error is [`Memory`], after which both
    /// are as they were.
    pub fn take(&mut self, more: &mut Vec<Entry>) -> Result<(), Memory>
        ensures queries { self.new.queries.now ≡ self.old.queries.now }
        ensures ok { OnOk result (self.new.entries.items
            ≡ self.old.entries.items ++ more.old.items) }
        ensures moved { OnOk result (more.new.items ≡ []) }
        ensures err { OnErr result ((self.new.entries.items ≡ self.old.entries.items)
            × (more.new.items ≡ more.old.items)) }
    {
        self.entries.append(more)?;
        Ok(())
    }

    /// Gives up entries that no query sees any more. Where they are at least half of those that came
    /// since the engine was rebuilt last and of those that it was rebuilt over, and at least 65,536
    /// entries came since, the engine is to be rebuilt over what is left.
    ///
    /// Where there is no memory to find how many are still seen, it is looked again after 65,536
    /// more.
    pub fn shrink(&mut self) -> AfterShrink
        ensures shrinks { ShrinksTo self.old.queries.now self.old.entries.items result
            self.new.entries.items }
        ensures queries { self.new.queries.now ≡ self.old.queries.now }
        ensures turn { ComesInTurn result (length self.old.entries.items + self.old.dropped)
            self.old.limit (length self.new.entries.items) self.new.dropped self.new.limit }
    {
        let all = self.entries.len().saturating_add(self.dropped);
        if self.entries.len() < self.full && all < self.limit {
            return AfterShrink::GoOn;
        }
        self.drop_passed();
        if all < self.limit {
            return AfterShrink::GoOn;
        }
        let Ok(seen) = seen_count(self.alloc, self.queries, &self.entries) else {
            self.limit = all.saturating_add(FRESH);
            return AfterShrink::GoOn;
        };
        if all / 2 < seen {
            self.limit = seen.saturating_mul(2).saturating_add(FRESH);
            return AfterShrink::GoOn;
        }
        self.keep_seen(seen);
        self.begin_anew(seen);
        AfterShrink::Rebuild
    }

    /// Drops the first entries that all windows have passed.
    fn drop_passed(&mut self)
        ensures drops { DropsFirst self.old.queries.now self.old.entries.items
            self.new.entries.items }
        ensures queries { self.new.queries.now ≡ self.old.queries.now }
        ensures limit { self.new.limit ≡ self.old.limit }
    {
        let gone = passed(self.queries, &self.entries);
        drop(self.entries.drain(..gone));
        self.dropped = self.dropped.saturating_add(gone);
        self.full = room_over(self.entries.len());
    }

    /// Keeps only what is saved for a later run, where more than a fifth of the entries isn't among
    /// those that are seen, so many, and there is memory for it.
    fn keep_seen(&mut self, seen: usize)
        ensures kept { (self.new.entries.items ≡ self.old.entries.items)
            ⊎ (self.new.entries.items ≡ first_stream
            (saved self.old.queries.now self.old.entries.items)) }
        ensures queries { self.new.queries.now ≡ self.old.queries.now }
    {
        if self.entries.len() / 5 * 4 <= seen {
            return;
        }
        let Ok(left) = seen_entries(self.alloc, self.queries, &self.entries) else {
            return;
        };
        self.entries = left;
    }

    /// The engine is rebuilt over the entries, of which so many are seen. Gives back the room that
    /// they don't need.
    fn begin_anew(&mut self, seen: usize)
        ensures entries { self.new.entries.items ≡ self.old.entries.items }
        ensures queries { self.new.queries.now ≡ self.old.queries.now }
        ensures none_dropped { self.new.dropped ≡ 0 }
        ensures limit { length self.new.entries.items + 65536 ≤ self.new.limit }
    {
        self.dropped = 0;
        self.full = room_over(self.entries.len());
        self.entries.shrink_to(self.full);
        let most = self.entries.len().max(seen.saturating_mul(2));
        self.limit = most.saturating_add(FRESH);
    }

    /// Copies of the entries behind so many first ones, at most 256, where these further entries
    /// follow. The only error is [`Memory`].
    pub fn copied_behind(&self, from: u64, further: &[Entry]) -> Result<Vec<Entry>, Memory>
        requires { from < length (self.now.entries.items ++ further.now) }
        ensures { IfOk result (λ entries. Repeats (self.now.entries.items ++ further.now)
            from entries.items) }
    {
        let many = self.entries.len() as u64;
        if from < many {
            first_copied(self.alloc, &self.entries[from as usize..])
        } else {
            first_copied(self.alloc, &further[(from - many) as usize..])
        }
    }
}

/// At how many entries those that all windows have passed are dropped, where so many are kept.
fn room_over(kept: usize) -> usize {
    (kept / 4).saturating_add(kept).saturating_add(AT_LEAST)
}

/// Copies of the first entries, at most 256. The only error is [`Memory`].
fn first_copied(alloc: Global, entries: &[Entry]) -> Result<Vec<Entry>, Memory>
    ensures { IfOk result (λ copies. copies.items ≡ take 256 entries.now) }
{
    copy_all(alloc, &entries[..AT_ONCE.min(entries.len())])
}

/// What is saved of the entries, as entries of the first stream. The only error is [`Memory`].
fn seen_entries(
    alloc: Global,
    queries: &[QueryDef],
    entries: &[Entry],
) -> Result<Vec<Entry>, Memory>
    ensures { IfOk result (λ left. left.items ≡ first_stream (saved queries.now entries.now)) }
{
    entries_of(alloc, saved(alloc, queries, entries)?)
}

/// The entries of the first stream with these tuples.
fn entries_of(alloc: Global, tuples: Vec<Tuple>) -> Result<Vec<Entry>, Memory>
    ensures { IfOk result (λ entries. entries.items ≡ first_stream tuples.items) }
{
    let mut entries = Vec::with_capacity(alloc, tuples.len())?;
    for tuple in tuples {
        entries.push(Entry { stream: 1, tuple })?;
    }
    Ok(entries)
}
