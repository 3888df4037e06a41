//! Workers on trees: two at the same time, with the bytes of one.

use crate::memory::{CYCLE, PATHS, RunSummary, TestRun, has_written, outcome_of, plainly_given};
use rpq_io::{Gate, OpenGate, Who};
use std::alloc::Global;
use std::hint::spin_loop;
use std::process::Abort;
use std::random::RandomSource;
use std::sync::Wait;
use std::sync::atomic::AtomicU64;
use std::sync::atomic::Ordering::SeqCst;
use std::thread::Threads;

/// For how many turns a worker waits for another.
const TURNS: u32 = 10_000_000;

/// A gate that holds a worker on trees until another comes. It counts the workers that were found
/// waiting, and none is found by a worker that runs before it or after it.
#[derive(Drop)]
struct WorkersGate {
    /// From how many trees on a change is shared.
    least: usize,
    /// The number of the worker that waits, or 0 where none does.
    waiting: AtomicU64,
    met: AtomicU64,
}

impl WorkersGate {
    /// No worker has come yet.
    fn new(least: usize) -> WorkersGate {
        WorkersGate {
            least,
            waiting: AtomicU64::new(0),
            met: AtomicU64::new(0),
        }
    }

    /// The worker lets the one go on that waits, or waits itself.
    fn meet(&self, number: u64) {
        let first = self.waiting.compare_exchange(0, number, SeqCst, SeqCst);
        if first.is_ok() {
            self.wait(number);
        } else if self.waiting.swap(0, SeqCst) != 0 {
            self.met.fetch_add(1, SeqCst);
        }
    }

    /// Whether a worker was found waiting.
    fn has_met(&self) -> bool {
        self.met.load(SeqCst) > 0
    }

    /// The worker waits until another lets it go on, or for so many turns.
    fn wait(&self, number: u64) {
        for _ in 0..TURNS {
            if self.waiting.load(SeqCst) != number {
                return;
            }
            spin_loop();
        }
        let _ = self.waiting.compare_exchange(number, 0, SeqCst, SeqCst);
    }
}

impl Gate for WorkersGate {
    fn pass(&self, who: Who) {
        if let Who::Trees(number) = who {
            self.meet(number as u64);
        }
    }

    fn trees_per_worker(&self) -> usize {
        self.least
    }

    fn replied(&self, _session: u32, _position: u64) {}
}

/// What a run of [`PATHS`] over [`CYCLE`] writes.
const EVENTS: &str = "@1 1 1 r a x +\n+ q r x\n\
    @2 1 1 x a y +\n+ q r y\n+ q x y\n\
    @3 1 1 y a x +\n+ q x x\n+ q y x\n+ q y y\n\
    @4 1 1 r a x -\n- q r x\n- q r y\n";

/// Whether a run of [`PATHS`] over [`CYCLE`] by so many workers writes [`EVENTS`] behind a gate by
/// which a change is shared from so many trees on, and whether a worker was found waiting in it is
/// as wanted.
fn writes_and_meets<R: Threads + Wait + RandomSource + Sync + Abort>(
    rt: &R,
    alloc: Global,
    workers: &str,
    least: usize,
    wanted: bool,
) -> bool {
    let gate = WorkersGate::new(least);
    writes_all(rt, alloc, workers, &gate) && gate.has_met() == wanted
}

/// Whether a run of [`PATHS`] over [`CYCLE`] by so many workers behind this gate writes [`EVENTS`].
fn writes_all<R: Threads + Wait + RandomSource + Sync + Abort>(
    rt: &R,
    alloc: Global,
    workers: &str,
    gate: &WorkersGate,
) -> bool {
    let words = ["--workers", workers, "q", "s"];
    let texts = [PATHS, CYCLE, ""];
    let mut given = plainly_given(rt, alloc, &words, texts);
    let outcome = outcome_of(rt, alloc, &mut given, gate);
    has_all(&given, &outcome)
}

/// Whether a run that was given this wrote [`EVENTS`], and nothing went wrong.
fn has_all(given: &TestRun, outcome: &RunSummary) -> bool {
    outcome.status == 0 && has_written(&given.events, EVENTS) && has_written(&given.errors, "")
}

#[test]
fn two_workers_at_the_same_time(rt: HostRuntime) {
    let alloc = rt.alloc();
    assert!(rt; writes_and_meets(&rt, alloc, "1", 1, false));
    assert!(rt; writes_and_meets(&rt, alloc, "2", 1, true));
    // few trees aren't shared by the gate of the program
    let least = OpenGate.trees_per_worker();
    assert!(rt; writes_and_meets(&rt, alloc, "2", least, false));
}
