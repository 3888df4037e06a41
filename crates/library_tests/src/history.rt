//! Tests of a history that threads share.

ghost use Rattle.std.specs.Prelude.{◌≡◌, ◌↔◌, ◌⊎◌, ℕ, ◌+◌, ◌<◌, ◌≤◌, ◌^◌, true, Some, length};
ghost use Rattle.std.specs.Prelude.{slice_index_or, take, drop};
ghost use Rattle.std.specs.Prelude.{IsTrue, IfOk, OnErr};
ghost use Rattle.turn_lock.specs.Passes.{newcomers};
ghost use Rattle.history_model.specs.declared.line.Why.{Why as Reason};
ghost use Rattle.history_model.specs.Lines.{entries, published, AllEnded, HasEnded, IsShut};
ghost use Rattle.history_model.specs.Lines.{IsShutFor};
ghost use Rattle.stream_history.specs.History.{IsPassOf, IsOpenPass, IsFeedingPass, HasSeen};

use crate::journal::{first_view, one_query, tick};
use history_model::Why;
use plain_checks::plain_view;
use rpq_base::Memory;
use rpq_model::QueryDef;
use std::alloc::Global;
use std::process::Abort;
use std::sync::{Arc, Wait};
use std::thread::{Threads, for_each_mut};
use stream_history::{AppendFault, Front, History, Journal, Looked, Pass, PublishFault};

/// More looks than a test needs until all streams have ended.
const LOOKS: u32 = 10_000_000;

/// A history of so many streams and readers that takes so many entries, its passes, and its
/// queries.
pub(crate) fn shared_history(
    rt: &impl Abort,
    alloc: Global,
    streams: u32,
    readers: u32,
    cap: u64,
) -> (History, Vec<Pass>, Arc<Vec<QueryDef>>)
    requires streams { (1 ≤ streams) × (streams ≤ 64) }
    requires readers { readers ≤ 64 }
    requires cap { (1 ≤ cap) × (cap ≤ 2 ^ 61) }
    ensures cap { result.0.terms.cap ≡ cap }
    ensures readers { result.0.readers ≡ readers }
    ensures streams { result.0.terms.streams ≡ streams }
    ensures count { result.0.turns.passes ≡ 1 + streams + readers }
    ensures passes { result.1.items
        ≡ newcomers result.0.turns.id result.0.terms (1 + streams + readers) }
    ensures queries { (result.2.value.items ≡ result.0.terms.queries)
        × (length result.2.value.items ≡ 1) }
{
    let queries = one_query(rt, alloc);
    let shared = Arc::try_clone(&queries).expect(rt, "memory");
    let first = first_view(rt, alloc);
    let (history, passes) = History::new(alloc, shared, streams, readers, 0, cap, first).expect(
        rt, "memory",
    );
    (history, passes, queries)
}

/// Appends a tuple that lets time pass.
pub(crate) fn write<R: Wait>(
    rt: &R,
    history: &History,
    pass: &mut Pass,
    time: u32,
) -> Result<u64, AppendFault>
    requires { IsOpenPass history.now pass.old }
    ensures open { IsOpenPass history.now pass.new }
    ensures number { pass.new.number ≡ pass.old.number }
{
    history.append(rt, pass, tick(time))
}

/// Ends the pass's stream.
fn end<R: Wait>(rt: &R, history: &History, pass: &mut Pass)
    requires { IsOpenPass history.now pass.old }
    ensures is { IsPassOf history.now pass.new }
    ensures number { pass.new.number ≡ pass.old.number }
{
    history.end_stream(rt, pass);
}

/// What a look finds.
#[derive(Clone, Copy, PartialEq)]
struct LookResult {
    position: u64,
    length: u64,
    all_ended: bool,
    shut: Option<Why>,
}

/// Looks at a history.
fn look<R: Wait>(rt: &R, history: &History, pass: &mut Pass) -> Option<LookResult>
    requires { IsPassOf history.now pass.old }
    ensures { HasSeen history.now pass.old pass.new }
{
    look_and_sleep(rt, history, pass, 0)
}

/// Looks at a history, and then sleeps until this position is published, if it isn't and may come.
fn look_and_sleep<R: Wait>(
    rt: &R,
    history: &History,
    pass: &mut Pass,
    wanted: u64,
) -> Option<LookResult>
    requires { IsPassOf history.now pass.old }
    ensures { HasSeen history.now pass.old pass.new }
{
    let Ok(looked) = look_at(rt, history, pass) else {
        return None;
    };
    let found = LookResult {
        position: looked.view.position(),
        length: looked.length,
        all_ended: looked.all_ended,
        shut: looked.shut,
    };
    let _slept = sleep_from(rt, history, looked, wanted);
    Some(found)
}

/// What a look finds, said of what was heard by then.
fn look_at<R: Wait>(rt: &R, history: &History, pass: &mut Pass) -> Result<Looked, Memory>
    requires { IsPassOf history.now pass.old }
    ensures seen { HasSeen history.now pass.old pass.new }
    ensures position { IfOk result (λ looked.
        looked.view.value.position ≡ published looked.heard) }
    ensures length { IfOk result (λ looked. looked.length ≡ length (entries looked.heard)) }
    ensures all_ended { IfOk result (λ looked.
        IsTrue looked.all_ended ↔ AllEnded history.now.terms.streams looked.heard) }
    ensures shut { IfOk result (λ looked. (why : Reason) →
        (looked.shut ≡ Some why) ↔ IsShutFor looked.heard why) }
{
    let looked = history.look(rt, pass)?;
    Ok(looked)
}

/// Whether a look found that no further position is to come.
fn is_over(looked: &Looked) -> bool
    ensures { IsTrue result ↔ (((why : Reason) × (looked.now.shut ≡ Some why))
        ⊎ ((looked.now.all_ended ≡ true)
        × (looked.now.view.value.position ≡ looked.now.length))) }
{
    looked.shut.is_some() || looked.all_ended && looked.view.position() == looked.length
}

/// Sleeps until this position is published, if by this look it isn't and may come. Answers whether
/// it slept.
fn sleep_from<R: Wait>(rt: &R, history: &History, looked: Looked, wanted: u64) -> bool
    requires position { looked.view.value.position ≡ published looked.heard }
    requires length { looked.length ≡ length (entries looked.heard) }
    requires all_ended { IsTrue looked.all_ended ↔ AllEnded history.now.terms.streams looked.heard }
    requires shut { (why : Reason) → (looked.shut ≡ Some why) ↔ IsShutFor looked.heard why }
{
    if looked.view.position() >= wanted || is_over(&looked) {
        return false;
    }
    history.sleep_until_views(rt, looked.heard, wanted);
    true
}

/// The entries from the first on, of a history that keeps all of them.
fn after<R: Wait>(
    rt: &R,
    alloc: Global,
    history: &History,
    pass: &mut Pass,
) -> Result<Front, Memory>
    requires { IsFeedingPass history.now pass.old }
    ensures pass { HasSeen history.now pass.old pass.new }
    ensures entries { IfOk result (λ front.
        front.entries.items ≡ take 256 (drop 0 (entries pass.new.seen))) }
    ensures length { IfOk result (λ front. front.length ≡ length (entries pass.new.seen)) }
    ensures all_ended { IfOk result (λ front.
        IsTrue front.all_ended ↔ AllEnded history.now.terms.streams pass.new.seen) }
    ensures heard { IfOk result (λ front. front.heard ≡ pass.new.seen) }
{
    match history.after(rt, alloc, pass, 0)? {
        Some(front) => Ok(front),
        None => Err(Memory),
    }
}

/// How many entries the engine gets from the first on, how many there are, and whether all streams
/// have ended.
fn get<R: Wait>(
    rt: &R,
    alloc: Global,
    history: &History,
    pass: &mut Pass,
) -> Option<(usize, u64, bool)>
    requires { IsFeedingPass history.now pass.old }
    ensures { IsFeedingPass history.now pass.new }
{
    let front = after(rt, alloc, history, pass).ok()?;
    Some((front.entries.len(), front.length, front.all_ended))
}

/// Publishes the view over the entries so far, at most 256 of them, from scratch, and answers how
/// many these are.
fn publish<R: Wait>(
    rt: &R,
    alloc: Global,
    queries: &[QueryDef],
    history: &History,
    pass: &mut Pass,
) -> Result<u64, PublishFault>
    requires engine { IsFeedingPass history.now pass.old }
    requires queries { (queries.now ≡ history.now.terms.queries) × (length queries.now ≡ 1) }
    ensures feeds { IsFeedingPass history.now pass.new }
    ensures published { IfOk result (λ position. published pass.new.mine ≡ position) }
    ensures refused { OnErr result (published pass.new.mine ≡ published pass.old.mine) }
{
    let front = after(rt, alloc, history, pass)?;
    let view = plain_view(alloc, queries, &front.entries)?;
    let position = view.position();
    match history.publish(rt, pass, view) {
        Ok(()) => Ok(position),
        Err(fault) => Err(fault),
    }
}

/// The first three passes, of the engine, a stream and a reader.
fn three(rt: &impl Abort, history: &History, passes: Vec<Pass>) -> (Pass, Pass, Pass)
    requires passes { passes.items ≡ newcomers history.now.turns.id history.now.terms 3 }
    requires streams { 1 ≤ history.now.terms.streams }
    ensures engine { IsFeedingPass history.now result.0 }
    ensures stream { IsOpenPass history.now result.1 × (result.1.number ≡ 1) }
    ensures reader { IsPassOf history.now result.2 × (result.2.number ≡ 2) }
{
    let _ = history;
    let mut passes = passes.into_iter();
    let engine = passes.next().expect(rt, "a pass");
    let stream = passes.next().expect(rt, "a pass");
    let reader = passes.next().expect(rt, "a pass");
    (engine, stream, reader)
}

/// Whether a history of one stream that takes one entry tells and refuses what it should, up to the
/// end of the stream.
fn tells_and_refuses<R: Wait>(
    rt: &R,
    alloc: Global,
    queries: &[QueryDef],
    history: &History,
    engine: &mut Pass,
    stream: &mut Pass,
) -> bool
    requires engine { IsFeedingPass history.now engine.old }
    requires stream { IsOpenPass history.now stream.old × (stream.old.number ≡ 1) }
    requires queries { (queries.now ≡ history.now.terms.queries) × (length queries.now ≡ 1) }
    ensures engine { IsPassOf history.now engine.new × (engine.new.number ≡ 0) }
    ensures stream { IsPassOf history.now stream.new × (stream.new.number ≡ 1) }
{
    let first = write(rt, history, stream, 5) == Ok(1);
    let full = write(rt, history, stream, 6) == Err(AppendFault::Full(1));
    let got = get(rt, alloc, history, engine) == Some((1, 1, false));
    let published = publish(rt, alloc, queries, history, engine) == Ok(1);
    let behind = publish(rt, alloc, queries, history, engine) == Err(PublishFault::Behind(1));
    history.shut(rt, engine, Why::Write);
    let closed = write(rt, history, stream, 7) == Err(AppendFault::Closed(Why::Write));
    end(rt, history, stream);
    first & full & got & published & behind & closed
}

/// Whether a look found no entries, and nothing ended or shut.
fn is_empty(found: Option<LookResult>) -> bool {
    found
        == Some(LookResult {
            position: 0,
            length: 0,
            all_ended: false,
            shut: None,
        })
}

/// Whether a look found one entry, published, and all ended and shut.
fn is_of_one_entry(found: Option<LookResult>) -> bool {
    found
        == Some(LookResult {
            position: 1,
            length: 1,
            all_ended: true,
            shut: Some(Why::Write),
        })
}

/// Whether the journal has one entry, published, and all is ended and shut.
fn has_one_entry(journal: &Journal) -> bool {
    let one = journal.length() == 1 && journal.published() == 1;
    let over = journal.all_ended() && journal.shut_reason() == Some(Why::Write);
    one & over
}

/// Whether a history that takes one entry tells and refuses what it should.
fn one_entry<R: Wait + Abort>(rt: &R, alloc: Global) -> bool {
    let (history, passes, queries) = shared_history(rt, alloc, 1, 1, 1);
    let mut given = Vec::with_capacity(alloc, 3).expect(rt, "memory");
    let (mut engine, mut stream, mut reader) = three(rt, &history, passes);
    let before = look(rt, &history, &mut reader);
    let tells = tells_and_refuses(rt, alloc, &queries, &history, &mut engine, &mut stream);
    let after = look(rt, &history, &mut reader);
    given.push_reserved(engine);
    given.push_reserved(stream);
    given.push_reserved(reader);
    let looks = is_empty(before) & is_of_one_entry(after);
    tells & looks & has_one_entry(&history.finish(given))
}

#[test]
fn a_history_of_one_entry(rt: HostRuntime) {
    assert!(rt; one_entry(&rt, rt.alloc()));
}

/// Sleeps until so many entries are published, and answers whether that came.
fn sleep_until_published<R: Wait>(rt: &R, history: &History, pass: &mut Pass, count: u64) -> bool
    requires { IsOpenPass history.now pass.old }
    ensures open { IsOpenPass history.now pass.new }
    ensures number { pass.new.number ≡ pass.old.number }
{
    for _ in 0..LOOKS {
        if let Some(found) = look_and_sleep(rt, history, pass, count) {
            if count <= found.position {
                return true;
            }
        }
    }
    false
}

/// Appends so many tuples, each at the time that counts those before; in turn with the engine, each
/// when all before it are published. Answers whether each wait for the engine came to its end.
fn write_all<R: Wait>(
    rt: &R,
    history: &History,
    pass: &mut Pass,
    count: u32,
    is_in_turn: bool,
) -> bool
    requires { IsOpenPass history.now pass.old }
    ensures open { IsOpenPass history.now pass.new }
    ensures number { pass.new.number ≡ pass.old.number }
{
    let mut all_came = true;
    for time in 0..count {
        let _ = write(rt, history, pass, time);
        if is_in_turn {
            all_came &= sleep_until_published(rt, history, pass, u64::from(time) + 1);
        }
    }
    all_came
}

/// Looks until all streams have ended, asleep between the looks, and answers whether that came, and
/// no look found less than the one before.
fn look_to_the_end<R: Wait>(rt: &R, history: &History, pass: &mut Pass) -> bool
    requires { IsPassOf history.now pass.old }
    ensures is { IsPassOf history.now pass.new }
    ensures number { pass.new.number ≡ pass.old.number }
{
    let mut rises = true;
    let mut last: (u64, u64) = (0, 0);
    for _ in 0..LOOKS {
        if let Some(found) = look_and_sleep(rt, history, pass, last.0.saturating_add(1)) {
            rises &= last.0 <= found.position && last.1 <= found.length;
            last = (found.position, found.length);
            if found.all_ended {
                return rises;
            }
        }
    }
    false
}

/// Publishes until all streams have ended, asleep while there are no more entries.
fn publish_to_the_end<R: Wait>(
    rt: &R,
    alloc: Global,
    queries: &[QueryDef],
    history: &History,
    pass: &mut Pass,
)
    requires engine { IsFeedingPass history.now pass.old }
    requires none { published pass.old.mine ≡ 0 }
    requires queries { (queries.now ≡ history.now.terms.queries) × (length queries.now ≡ 1) }
    ensures { IsFeedingPass history.now pass.new }
{
    let mut count = 0;
    for _ in 0..LOOKS {
        if sleep_at(rt, alloc, history, pass, count) {
            return;
        }
        if let Ok(position) = publish(rt, alloc, queries, history, pass) {
            count = position;
        }
    }
}

/// Sleeps until there are more entries than these, if there aren't and may be more, and answers
/// whether there are no more and all streams have ended.
fn sleep_at<R: Wait>(rt: &R, alloc: Global, history: &History, pass: &mut Pass, count: u64) -> bool
    requires engine { IsFeedingPass history.now pass.old }
    requires published { published pass.old.mine ≡ count }
    ensures feeds { IsFeedingPass history.now pass.new }
    ensures mine { pass.new.mine ≡ pass.old.mine }
{
    let Ok(front) = after(rt, alloc, history, pass) else {
        return false;
    };
    let is_all = front.length == count;
    let all_ended = front.all_ended;
    if is_all && !all_ended {
        history.sleep_until_entries(rt, pass, front.heard, count);
    }
    is_all && all_ended
}

/// What the threads of a test do: this many streams append this many tuples each.
#[derive(Clone, Copy)]
struct ThreadPlan {
    streams: u32,
    each: u32,
    /// Whether the engine publishes until the streams have ended, as they then do.
    is_published: bool,
    /// Whether a stream waits with each tuple until all before it are published. Else the readers
    /// look until the streams have ended.
    is_in_turn: bool,
}

/// Does the part of the stream with this pass.
fn append_as_told<R: Wait + Abort>(rt: &R, history: &History, pass: &mut Pass, task: ThreadPlan)
    requires { IsOpenPass history.now pass.old }
    ensures is { IsPassOf history.now pass.new }
    ensures number { pass.new.number ≡ pass.old.number }
{
    assert!(rt; write_all(rt, history, pass, task.each, task.is_in_turn));
    if task.is_published {
        end(rt, history, pass);
    }
}

/// Does the part of the engine, a stream or a reader, by the number of its pass.
fn take_part<R: Wait + Abort>(
    rt: &R,
    alloc: Global,
    queries: &[QueryDef],
    history: &History,
    number: usize,
    pass: &mut Pass,
    task: ThreadPlan,
)
    requires streams { task.streams ≡ history.now.terms.streams }
    requires queries { (queries.now ≡ history.now.terms.queries) × (length queries.now ≡ 1) }
    requires is { IsPassOf history.now pass.old × (pass.old.number ≡ number) }
    requires goes_on { HasEnded pass.old.mine number → ⊥ }
    requires feeds { IsShut pass.old.mine → ⊥ }
    requires none { published pass.old.mine ≡ 0 }
    ensures { IsPassOf history.now pass.new × (pass.new.number ≡ number) }
{
    if number == 0 {
        if task.is_published {
            publish_to_the_end(rt, alloc, queries, history, pass);
        }
    } else if number <= task.streams as usize {
        append_as_told(rt, history, pass, task);
    } else if !task.is_in_turn {
        assert!(rt; look_to_the_end(rt, history, pass));
    }
}

/// Each pass takes part in the task in a thread of its own.
fn share<R: Threads + Wait + Abort + Sync>(
    rt: &R,
    alloc: Global,
    queries: &[QueryDef],
    history: &History,
    passes: &mut Vec<Pass>,
    task: ThreadPlan,
)
    requires streams { task.streams ≡ history.now.terms.streams }
    requires queries { (queries.now ≡ history.now.terms.queries) × (length queries.now ≡ 1) }
    requires some { 0 < length passes.old.items }
    requires passes { (i : ℕ) (d : _) → i < length passes.old.items →
        IsPassOf history.now (slice_index_or passes.old.items i d)
        × ((slice_index_or passes.old.items i d).number ≡ i)
        × (HasEnded (slice_index_or passes.old.items i d).mine i → ⊥)
        × (IsShut (slice_index_or passes.old.items i d).mine → ⊥)
        × (published (slice_index_or passes.old.items i d).mine ≡ 0) }
    ensures length { length passes.new.items ≡ length passes.old.items }
    ensures passes { (i : ℕ) (d : _) → i < length passes.old.items →
        IsPassOf history.now (slice_index_or passes.new.items i d)
        × ((slice_index_or passes.new.items i d).number ≡ i) }
{
    let threads = passes.len();
    for_each_mut(
        rt,
        passes,
        threads,
        &|number: usize, pass: &mut Pass|
            requires streams { task.streams ≡ history.now.terms.streams }
            requires queries { (queries.now ≡ history.now.terms.queries)
                × (length queries.now ≡ 1) }
            requires is { IsPassOf history.now pass.now × (pass.now.number ≡ number) }
            requires goes_on { HasEnded pass.now.mine number → ⊥ }
            requires feeds { IsShut pass.now.mine → ⊥ }
            requires none { published pass.now.mine ≡ 0 }
            ensures { IsPassOf history.entry.now pass.exit.now
                × (pass.exit.now.number ≡ number) }
        { take_part(rt, alloc, queries, history, number, pass, task) },
    );
}

/// The journal of a history of so many readers that takes so many entries, after its passes did the
/// task.
fn journal_of<R: Threads + Wait + Abort + Sync>(
    rt: &R,
    alloc: Global,
    task: ThreadPlan,
    readers: u32,
    cap: u64,
) -> Journal
    requires streams { (1 ≤ task.streams) × (task.streams ≤ 64) }
    requires readers { readers ≤ 64 }
    requires cap { (1 ≤ cap) × (cap ≤ 2 ^ 30) }
{
    let (history, mut passes, queries) = shared_history(rt, alloc, task.streams, readers, cap);
    share(rt, alloc, &queries, &history, &mut passes, task);
    history.finish(passes)
}

/// How many entries are of the stream, each at the time that counts those before.
fn in_order(journal: &Journal, stream: u32) -> u64 {
    let mut next = 0;
    for entry in journal.entries_from(journal.base()) {
        if entry.stream == stream && entry.tuple.time == next {
            next += 1;
        }
    }
    next
}

/// Whether each of so many streams has so many entries in their order.
fn are_in_order(journal: &Journal, streams: u32, each: u64) -> bool {
    let mut are = true;
    for stream in 0..streams {
        are &= in_order(journal, stream + 1) == each;
    }
    are
}

#[test]
fn two_streams_append_while_others_look(rt: HostRuntime) {
    let task = ThreadPlan {
        streams: 2,
        each: 100,
        is_published: true,
        is_in_turn: false,
    };
    // One ring has to wake all three readers at the end.
    let journal = journal_of(&rt, rt.alloc(), task, 3, 200);
    assert!(rt; journal.length() == 200 && journal.published() == 200);
    assert!(rt; are_in_order(&journal, 2, 100));
}

#[test]
fn a_stream_and_the_engine_wake_each_other(rt: HostRuntime) {
    let task = ThreadPlan {
        streams: 1,
        each: 100,
        is_published: true,
        is_in_turn: true,
    };
    // Between two appends there is a publish: the stream asserts that each of its waits ended.
    let journal = journal_of(&rt, rt.alloc(), task, 1, 100);
    assert!(rt; journal.length() == 100 && journal.published() == 100);
}

#[test]
fn many_streams_append(rt: HostRuntime) {
    let task = ThreadPlan {
        streams: 64,
        each: 50,
        is_published: false,
        is_in_turn: false,
    };
    let journal = journal_of(&rt, rt.alloc(), task, 0, 3200);
    assert!(rt; journal.length() == 3200 && are_in_order(&journal, 64, 50));
}

/// The first four passes, of the engine, two streams and a reader.
fn four(rt: &impl Abort, history: &History, passes: Vec<Pass>) -> (Pass, Pass, Pass, Pass)
    requires passes { passes.items ≡ newcomers history.now.turns.id history.now.terms 4 }
    requires streams { 2 ≤ history.now.terms.streams }
    ensures engine { IsFeedingPass history.now result.0 × (published result.0.mine ≡ 0) }
    ensures one { IsOpenPass history.now result.1 }
    ensures two { IsOpenPass history.now result.2 }
    ensures reader { IsPassOf history.now result.3 }
{
    let _ = history;
    let mut passes = passes.into_iter();
    let engine = passes.next().expect(rt, "a pass");
    let one = passes.next().expect(rt, "a pass");
    let two = passes.next().expect(rt, "a pass");
    let reader = passes.next().expect(rt, "a pass");
    (engine, one, two, reader)
}

/// Whether the engine's sleep ends for an entry that came after its look.
fn hears_an_entry<R: Wait>(
    rt: &R,
    alloc: Global,
    history: &History,
    engine: &mut Pass,
    stream: &mut Pass,
) -> bool
    requires engine { IsFeedingPass history.now engine.old × (published engine.old.mine ≡ 0) }
    requires stream { IsOpenPass history.now stream.old }
    ensures engine { IsFeedingPass history.now engine.new }
    ensures stream { IsOpenPass history.now stream.new }
{
    let Ok(front) = after(rt, alloc, history, engine) else {
        return false;
    };
    let appended = write(rt, history, stream, 1) == Ok(1);
    if front.length != 0 || front.all_ended {
        return false;
    }
    history.sleep_until_entries(rt, engine, front.heard, 0);
    appended
}

/// Whether a reader's sleep ends for a view that was published after its look.
fn hears_a_view<R: Wait>(
    rt: &R,
    alloc: Global,
    queries: &[QueryDef],
    history: &History,
    engine: &mut Pass,
    reader: &mut Pass,
    wanted: u64,
) -> bool
    requires engine { IsFeedingPass history.now engine.old }
    requires queries { (queries.now ≡ history.now.terms.queries) × (length queries.now ≡ 1) }
    requires reader { IsPassOf history.now reader.old }
    ensures engine { IsFeedingPass history.now engine.new }
    ensures reader { IsPassOf history.now reader.new }
{
    let Ok(looked) = look_at(rt, history, reader) else {
        return false;
    };
    let published = publish(rt, alloc, queries, history, engine).is_ok();
    published & sleep_from(rt, history, looked, wanted)
}

/// Whether two sleeps, one for this position and one for a far one, end for the end of a stream
/// that came after the looks.
fn hears_an_end<R: Wait>(
    rt: &R,
    history: &History,
    stream: &mut Pass,
    reader: &mut Pass,
    wanted: u64,
) -> bool
    requires stream { IsOpenPass history.now stream.old }
    requires reader { IsPassOf history.now reader.old }
    ensures reader { IsPassOf history.now reader.new }
{
    let Ok(near) = look_at(rt, history, reader) else {
        return false;
    };
    let Ok(far) = look_at(rt, history, reader) else {
        return false;
    };
    end(rt, history, stream);
    sleep_from(rt, history, near, wanted) & sleep_from(rt, history, far, 1000)
}

/// Whether somebody waits for this position, and nobody for one before it.
fn is_waited_for_from(history: &History, position: u64) -> bool
    requires { 1 ≤ position }
{
    let here = history.is_view_wanted(position);
    let before = history.is_view_wanted(position - 1);
    here & !before
}

/// Whether each sleep ends for what came between the look and the sleep. No other thread is there:
/// a sleep that doesn't see it never ends.
fn no_ring_is_lost<R: Wait + Abort>(rt: &R, alloc: Global) -> bool {
    let (history, passes, queries) = shared_history(rt, alloc, 2, 1, 4);
    let (mut engine, mut one, mut two, mut reader) = four(rt, &history, passes);
    let entry = hears_an_entry(rt, alloc, &history, &mut engine, &mut one);
    let view = hears_a_view(rt, alloc, &queries, &history, &mut engine, &mut reader, 1);
    // Of the two who sleep here the one for the near position is still woken by the next view.
    let end = hears_an_end(rt, &history, &mut two, &mut reader, 2);
    let told = is_waited_for_from(&history, 2);
    let more = write(rt, &history, &mut one, 2) == Ok(2);
    let next = hears_a_view(rt, alloc, &queries, &history, &mut engine, &mut reader, 3);
    let last = hears_an_end(rt, &history, &mut one, &mut reader, 9);
    entry & view & end & told & more & next & last
}

#[test]
fn a_ring_after_the_look_ends_the_sleep(rt: HostRuntime) {
    assert!(rt; no_ring_is_lost(&rt, rt.alloc()));
}
