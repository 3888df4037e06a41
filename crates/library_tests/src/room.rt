//! Tests of a history that forgets its entries, and of the streams that wait for room in it.

ghost use Rattle.std.specs.Prelude.{◌≡◌, ◌≤◌, ◌^◌, length};
ghost use Rattle.turn_lock.specs.Passes.{newcomers};
ghost use Rattle.history_model.specs.Lines.{entries};
ghost use Rattle.stream_history.specs.Journal.{KeepsAll};
ghost use Rattle.stream_history.specs.History.{IsOpenPass, IsFeedingPass};

use crate::history::{shared_history, write};
use history_model::Why;
use std::alloc::Global;
use std::process::Abort;
use std::sync::Wait;
use std::thread::{Threads, join};
use stream_history::{History, Pass};

/// The cap of a history that forgets.
const ENDLESS: u64 = 1 << 61;

/// The greatest cap of a history that keeps all.
const KEPT: u64 = 1 << 30;

/// As many entries without an answer leave no room.
const ROOM: u64 = 65_536;

/// More than there is room for.
const MORE: u32 = 65_600;

/// More looks than a test needs until a stream waits for room.
const LOOKS: u32 = 10_000_000;

/// So many looks tell whether it waits.
const FEW_LOOKS: u32 = 1000;

/// A history of one stream that takes so many entries, and the passes of its engine and its stream.
fn history_of(rt: &impl Abort, alloc: Global, cap: u64) -> (History, Pass, Pass)
    requires { (1 ≤ cap) × (cap ≤ 2 ^ 61) }
    ensures cap { result.0.terms.cap ≡ cap }
    ensures readers { result.0.readers ≡ 0 }
    ensures engine { IsFeedingPass result.0 result.1 }
    ensures stream { IsOpenPass result.0 result.2 }
{
    let (history, passes, _) = shared_history(rt, alloc, 1, 0, cap);
    let (engine, stream) = two(rt, &history, passes);
    (history, engine, stream)
}

/// The passes of the engine and of the first stream.
fn two(rt: &impl Abort, history: &History, passes: Vec<Pass>) -> (Pass, Pass)
    requires passes { passes.items ≡ newcomers history.now.turns.id history.now.terms 2 }
    requires streams { 1 ≤ history.now.terms.streams }
    ensures engine { IsFeedingPass history.now result.0 }
    ensures stream { IsOpenPass history.now result.1 }
{
    let _ = history;
    let mut passes = passes.into_iter();
    let engine = passes.next().expect(rt, "a pass");
    let stream = passes.next().expect(rt, "a pass");
    (engine, stream)
}

/// Appends so many tuples, each once there is room, and answers how many, which are fewer if the
/// history is shut.
fn write_in_room<R: Wait>(rt: &R, history: &History, pass: &mut Pass, count: u32) -> u32
    requires { IsOpenPass history.now pass.old }
    ensures { IsOpenPass history.now pass.new }
{
    let mut done = 0;
    for time in 0..count {
        history.wait_for_room(rt, pass);
        if write(rt, history, pass, time).is_ok() {
            done += 1;
        }
    }
    done
}

/// How many of the entries behind so many first ones the engine gets, or none where some of these
/// are gone.
fn count_behind<R: Wait>(
    rt: &R,
    alloc: Global,
    history: &History,
    pass: &mut Pass,
    from: u64,
) -> Option<usize>
    requires engine { IsFeedingPass history.now pass.old }
    requires readers { history.now.readers ≡ 0 }
    requires there { from ≤ length (entries pass.old.seen) }
    ensures engine { IsFeedingPass history.now pass.new }
    ensures there { length (entries pass.old.seen) ≤ length (entries pass.new.seen) }
{
    let front = history.after(rt, alloc, pass, from).ok()??;
    Some(front.entries.len())
}

/// Looks until there are so many entries, or so many times, and answers how many it saw.
fn look_for<R: Wait>(
    rt: &R,
    alloc: Global,
    history: &History,
    pass: &mut Pass,
    wanted: u64,
    looks: u32,
) -> u64
    requires engine { IsFeedingPass history.now pass.old }
    requires readers { history.now.readers ≡ 0 }
    ensures engine { IsFeedingPass history.now pass.new }
    ensures there { result ≤ length (entries pass.new.seen) }
{
    let mut seen = 0;
    for _ in 0..looks {
        seen = look_once(rt, alloc, history, pass);
        if wanted <= seen {
            return seen;
        }
    }
    seen
}

/// Looks once, and answers how many entries it saw, or 0 where it got none.
fn look_once<R: Wait>(rt: &R, alloc: Global, history: &History, pass: &mut Pass) -> u64
    requires engine { IsFeedingPass history.now pass.old }
    requires readers { history.now.readers ≡ 0 }
    ensures engine { IsFeedingPass history.now pass.new }
    ensures there { result ≤ length (entries pass.new.seen) }
{
    match history.after(rt, alloc, pass, 0) {
        Ok(Some(front)) => front.length,
        _ => 0,
    }
}

/// Waits until the stream waits, and then makes room, or shuts the history. Answers whether the
/// stream waited with as many entries as there is room for.
fn let_go_on<R: Wait>(
    rt: &R,
    alloc: Global,
    history: &History,
    engine: &mut Pass,
    is_shut: bool,
) -> bool
    requires engine { IsFeedingPass history.now engine.old }
    requires forgets { KeepsAll history.now.terms → ⊥ }
    requires readers { history.now.readers ≡ 0 }
{
    let full = look_for(rt, alloc, history, engine, ROOM, LOOKS);
    let still = look_for(rt, alloc, history, engine, ROOM + 1, FEW_LOOKS);
    if is_shut {
        history.shut(rt, engine, Why::Write);
    } else {
        history.forget(rt, engine, still);
    }
    full == ROOM && still == ROOM
}

/// How many of its tuples a stream appends that the engine lets go on, if it waited.
fn write_and_wait<R: Threads + Wait + Abort + Sync>(
    rt: &R,
    alloc: Global,
    is_shut: bool,
) -> Option<u32> {
    let (history, mut engine, mut stream) = history_of(rt, alloc, ENDLESS);
    let shared = &history;
    let _ = count_behind(rt, alloc, shared, &mut engine, 0);
    let (waited, written) = join(
        rt,
        || let_go_on(rt, alloc, shared, &mut engine, is_shut),
        || write_in_room(rt, shared, &mut stream, MORE),
    );
    waited.then_some(written)
}

#[test]
fn a_stream_waits_for_room(rt: HostRuntime) {
    assert!(rt; write_and_wait(&rt, rt.alloc(), false) == Some(MORE));
}

#[test]
fn a_shut_ends_the_wait_for_room(rt: HostRuntime) {
    assert!(rt; write_and_wait(&rt, rt.alloc(), true) == Some(65_536));
}

/// How many tuples a stream of a history appends alone, where the engine has begun or hasn't.
fn write_alone<R: Wait + Abort>(rt: &R, alloc: Global, cap: u64, has_begun: bool) -> u32
    requires { (1 ≤ cap) × (cap ≤ 2 ^ 61) }
{
    let (history, mut engine, mut stream) = history_of(rt, alloc, cap);
    if has_begun {
        let _ = count_behind(rt, alloc, &history, &mut engine, 0);
    }
    write_in_room(rt, &history, &mut stream, MORE)
}

#[test]
fn nobody_waits_before_the_engine_begins(rt: HostRuntime) {
    assert!(rt; write_alone(&rt, rt.alloc(), ENDLESS, false) == MORE);
}

#[test]
fn nobody_waits_where_all_is_kept(rt: HostRuntime) {
    assert!(rt; write_alone(&rt, rt.alloc(), KEPT, true) == MORE);
}

/// Gives up so many first entries.
fn give_up<R: Wait>(rt: &R, history: &History, pass: &mut Pass, count: u64)
    requires engine { IsFeedingPass history.now pass.old }
    requires forgets { KeepsAll history.now.terms → ⊥ }
    requires readers { history.now.readers ≡ 0 }
    requires there { count ≤ length (entries pass.old.seen) }
    ensures engine { IsFeedingPass history.now pass.new }
    ensures there { length (entries pass.old.seen) ≤ length (entries pass.new.seen) }
{
    history.forget(rt, pass, count);
}

/// Whether a history forgets the first entries, and gives those behind them.
fn forgets<R: Wait>(
    rt: &R,
    alloc: Global,
    history: &History,
    engine: &mut Pass,
    stream: &mut Pass,
) -> bool
    requires forgets { KeepsAll history.now.terms → ⊥ }
    requires readers { history.now.readers ≡ 0 }
    requires engine { IsFeedingPass history.now engine.old }
    requires stream { IsOpenPass history.now stream.old }
{
    let written = write_in_room(rt, history, stream, 4) == 4;
    if look_for(rt, alloc, history, engine, 4, 1) != 4 {
        return false;
    }
    let before = count_behind(rt, alloc, history, engine, 0) == Some(4);
    give_up(rt, history, engine, 3);
    let gone = count_behind(rt, alloc, history, engine, 2).is_none();
    let last = count_behind(rt, alloc, history, engine, 3) == Some(1);
    let next = write(rt, history, stream, 4) == Ok(5);
    let both = count_behind(rt, alloc, history, engine, 3) == Some(2);
    written & before & gone & last & next & both
}

/// Whether a history that forgets does.
fn is_forgetful<R: Wait + Abort>(rt: &R, alloc: Global) -> bool {
    let (history, mut engine, mut stream) = history_of(rt, alloc, ENDLESS);
    !history.keeps_all() && forgets(rt, alloc, &history, &mut engine, &mut stream)
}

#[test]
fn a_history_forgets_its_first_entries(rt: HostRuntime) {
    assert!(rt; is_forgetful(&rt, rt.alloc()));
}
