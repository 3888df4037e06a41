//! Readers beside a stream and the engine: each is answered before its next line is read, and one
//! whose replies nobody takes holds up nobody but the end of the run.

use crate::memory::words_of;
use crate::watched::{WatchedSource, has_come};
use rpq_io::{Files, HostSink, HostSource, OpenFault, OpenGate};
use rpq_run::{ReaderEnd, ReaderOutcome, Report, run};
use std::alloc::Global;
use std::io;
use std::io::Write;
use std::process::Abort;
use std::random::RandomSource;
use std::sync::Wait;
use std::sync::atomic::AtomicU64;
use std::sync::atomic::Ordering::SeqCst;
use std::thread::Threads;

/// The queries file.
const QUERIES: &str = "query q window 100 slide 10 arbitrary: a/b\n";

/// Takes whatever is written on it, and counts the writes; but it holds each of them until another
/// count comes to one, if there is one for which it waits.
#[derive(Drop)]
struct WatchedSink<'a> {
    writes: &'a AtomicU64,
    held_for: Option<&'a AtomicU64>,
    /// How many writes gave up waiting.
    alone: &'a AtomicU64,
}

impl<'a> Write for WatchedSink<'a> {
    fn write(&mut self, buf: &[u8]) -> io::Result<usize> {
        self.writes.fetch_add(1, SeqCst);
        if let Some(count) = self.held_for {
            if !has_come(count) {
                self.alone.fetch_add(1, SeqCst);
            }
        }
        Ok(buf.len())
    }

    fn flush(&mut self) -> io::Result<()> {
        Ok(())
    }
}

/// The counts of a run: of the answers to its two readers, of all other writes, and of those that
/// gave up waiting.
#[derive(Drop)]
struct Counts {
    first: AtomicU64,
    second: AtomicU64,
    others: AtomicU64,
    alone: AtomicU64,
}

impl Counts {
    fn new() -> Counts {
        Counts {
            first: AtomicU64::new(0),
            second: AtomicU64::new(0),
            others: AtomicU64::new(0),
            alone: AtomicU64::new(0),
        }
    }
}

/// The files `q` and `s`, of which the second line is there once the first reader is being
/// answered; and what two readers ask, `a` and `b`, and their replies, `x` and `y`.
#[derive(Drop)]
struct WatchedFiles<'a> {
    alloc: Global,
    /// The second text of `a`, which is there as the second line of `s` is.
    more_asks: &'a str,
    /// Whether an answer to the first reader is taken only once the second is being answered.
    is_held: bool,
    first: &'a AtomicU64,
    second: &'a AtomicU64,
    alone: &'a AtomicU64,
    opened: Vec<String>,
    made: Vec<String>,
}

impl<'a> Files for WatchedFiles<'a> {
    ghost use Rattle.std.specs.Prelude.{None, map, string_bytes};

    type Source = HostSource<WatchedSource<'a>>;

    type Sink = HostSink<WatchedSink<'a>>;

    ghost holds = { λ _ _. None };

    ghost opened = { λ files. map (λ name. string_bytes name) files.opened.items };

    ghost made = { λ files. map (λ name. string_bytes name) files.made.items };

    ghost unread = { λ _ _. 0 };

    ghost unmade = { λ _ _. 0 };

    fn source(&mut self, name: &str) -> Result<HostSource<WatchedSource<'a>>, OpenFault> {
        self.opened.reserve(1)?;
        let noted = String::from_str(self.alloc, name)?;
        self.opened.push_reserved(noted);
        let (first, second) = match name {
            "q" => (QUERIES, ""),
            "a" => ("wait 1\n", self.more_asks),
            "b" => ("wait 2\n", ""),
            _ => ("1 x a y\n", "2 y b z\n"),
        };
        Ok(HostSource::new(WatchedSource {
            first,
            second,
            awaited: self.first,
            calls: 0,
        }))
    }

    fn sink(&mut self, name: &str) -> Result<HostSink<WatchedSink<'a>>, OpenFault> {
        self.made.reserve(1)?;
        let noted = String::from_str(self.alloc, name)?;
        self.made.push_reserved(noted);
        let (writes, held_for) = match name {
            "x" if self.is_held => (self.first, Some(self.second)),
            "x" => (self.first, None),
            _ => (self.second, None),
        };
        Ok(HostSink::new(WatchedSink {
            writes,
            held_for,
            alone: self.alone,
        }))
    }
}

/// A sink of the events or the errors.
fn other_sink(counts: &Counts) -> HostSink<WatchedSink<'_>> {
    HostSink::new(WatchedSink {
        writes: &counts.others,
        held_for: None,
        alone: &counts.alone,
    })
}

/// Whether a run over the watched files with these words is done, and its readers are served. It
/// promises nothing, so that no test carries along what `run` promises.
fn is_served<'a, R: Threads + Wait + RandomSource + Sync + Abort>(
    rt: &R,
    alloc: Global,
    words: &[&str],
    more_asks: &'a str,
    is_held: bool,
    counts: &'a Counts,
) -> bool {
    let words = words_of(rt, alloc, words);
    let mut files = WatchedFiles {
        alloc,
        more_asks,
        is_held,
        first: &counts.first,
        second: &counts.second,
        alone: &counts.alone,
        opened: Vec::new(alloc),
        made: Vec::new(alloc),
    };
    let report = run(
        rt,
        alloc,
        &words,
        &mut files,
        &mut other_sink(counts),
        &mut other_sink(counts),
        &mut Vec::new(alloc),
        &OpenGate,
    );
    has_served(report)
}

/// Whether the run of this report is done, and its readers came to the end of their asks.
fn has_served<F: Files>(report: Report<F>) -> bool {
    report.status == 0 && are_whole(&report.readers)
}

/// Whether these readers came to the end of their asks.
fn are_whole<S, K>(readers: &[ReaderOutcome<S, K>]) -> bool {
    for reader in readers {
        if reader.end != ReaderEnd::Whole {
            return false;
        }
    }
    true
}

#[test]
fn a_reply_beside_the_run_before_the_next_line(rt: HostRuntime) {
    let counts = Counts::new();
    let words = ["--reader", "a", "x", "q", "s"];
    assert!(rt; is_served(&rt, rt.alloc(), &words, "wait 2\n", false, &counts));
    assert!(rt; counts.first.load(SeqCst) == 2);
}

#[test]
fn nobody_waits_for_a_reader_whose_replies_nobody_takes(rt: HostRuntime) {
    let counts = Counts::new();
    let words = ["--reader", "a", "x", "--reader", "b", "y", "q", "s"];
    assert!(rt; is_served(&rt, rt.alloc(), &words, "", true, &counts));
    assert!(rt; counts.second.load(SeqCst) == 1);
    assert!(rt; counts.alone.load(SeqCst) == 0);
}
