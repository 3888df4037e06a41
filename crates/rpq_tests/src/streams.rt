//! Runs over several streams at the same time.

use crate::memory::{RunSummary, TestRun, has_written, outcome_of, plainly_given};
use rpq_io::{Gate, Who};
use std::hint::spin_loop;
use std::sync::atomic::AtomicU64;
use std::sync::atomic::Ordering::SeqCst;

/// For how many turns a stream waits for the other.
const TURNS: u32 = 10_000_000;

/// A gate that holds each of the streams 1 and 2 until the other has come.
#[derive(Drop)]
struct StreamsGate {
    /// How many of the two have come.
    come: AtomicU64,
    /// How many went on without having met the other.
    alone: AtomicU64,
}

impl Gate for StreamsGate {
    fn pass(&self, who: Who) {
        if let Who::Stream(_) = who {
            self.come.fetch_add(1, SeqCst);
            for _ in 0..TURNS {
                if self.come.load(SeqCst) >= 2 {
                    return;
                }
                spin_loop();
            }
            self.alone.fetch_add(1, SeqCst);
        }
    }

    fn replied(&self, _session: u32, _position: u64) {}
}

/// Whether a run that was given this took five entries, and nothing went wrong.
fn has_all(given: &TestRun, outcome: &RunSummary) -> bool {
    outcome.status == 0 && outcome.entries == 5 && has_written(&given.errors, "")
}

#[test]
fn two_streams_at_the_same_time(rt: HostRuntime) {
    let alloc = rt.alloc();
    let gate = StreamsGate {
        come: AtomicU64::new(0),
        alone: AtomicU64::new(0),
    };
    let texts = [
        "query q window 9 slide 3 arbitrary: a\n",
        "1 x a y\n2 y b z\n3 x a w\n",
        "4 w b z\n5\n",
    ];
    let mut given = plainly_given(&rt, alloc, &["q", "s", "t"], texts);
    let outcome = outcome_of(&rt, alloc, &mut given, &gate);
    assert!(rt; has_all(&given, &outcome));
    assert!(rt; gate.alone.load(SeqCst) == 0);
}
