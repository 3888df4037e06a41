//! Faulty lines that are told apart: each is told before the next line of its stream is read, and a
//! stream whose faults can't be written ends alone.

use crate::memory::words_of;
use crate::watched::WatchedSource;
use rpq_io::{Files, HostSink, HostSource, OpenFault, OpenGate};
use rpq_run::{Report, StreamEnd, run};
use std::alloc::Global;
use std::io;
use std::io::{ErrorKind, Write};
use std::process::Abort;
use std::random::RandomSource;
use std::sync::Wait;
use std::sync::atomic::AtomicU64;
use std::sync::atomic::Ordering::SeqCst;
use std::thread::Threads;

/// Counts the writes, each of which it takes whole or refuses.
#[derive(Drop)]
struct CountedSink<'a> {
    writes: &'a AtomicU64,
    refuses: bool,
}

impl<'a> Write for CountedSink<'a> {
    fn write(&mut self, buf: &[u8]) -> io::Result<usize> {
        self.writes.fetch_add(1, SeqCst);
        if self.refuses {
            return Err(io::Error::from(ErrorKind::Other));
        }
        Ok(buf.len())
    }

    fn flush(&mut self) -> io::Result<()> {
        Ok(())
    }
}

/// The counts of a run: of the writes on the sinks that it opens, and of those on its others.
#[derive(Drop)]
struct Counts {
    told: AtomicU64,
    others: AtomicU64,
}

impl Counts {
    fn new() -> Counts {
        Counts {
            told: AtomicU64::new(0),
            others: AtomicU64::new(0),
        }
    }
}

/// The files `q`, `s` and `t`. The second line of `s` is faulty. The last lines of `s` and `t` are
/// there once a fault was told, or couldn't be.
#[derive(Drop)]
struct FaultyFiles<'a> {
    alloc: Global,
    /// How many writes there were on the sinks that were opened.
    told: &'a AtomicU64,
    /// Whether these sinks refuse what is written.
    refuses: bool,
    opened: Vec<String>,
    made: Vec<String>,
}

impl<'a> Files for FaultyFiles<'a> {
    ghost use Rattle.std.specs.Prelude.{None, map, string_bytes};

    type Source = HostSource<WatchedSource<'a>>;

    type Sink = HostSink<CountedSink<'a>>;

    ghost holds = { λ _ _. None };

    ghost opened = { λ files. map (λ name. string_bytes name) files.opened.items };

    ghost made = { λ files. map (λ name. string_bytes name) files.made.items };

    ghost unread = { λ _ _. 0 };

    ghost unmade = { λ _ _. 0 };

    fn source(&mut self, name: &str) -> Result<HostSource<WatchedSource<'a>>, OpenFault> {
        self.opened.reserve(1)?;
        let noted = String::from_str(self.alloc, name)?;
        self.opened.push_reserved(noted);
        let (first, second) = match name {
            "q" => ("query q window 100 slide 10 arbitrary: a/b\n", ""),
            "s" => ("1 x a y\nnone\n", "2 y b z\n"),
            _ => ("1 u a v\n", "2 v b w\n"),
        };
        Ok(HostSource::new(WatchedSource {
            first,
            second,
            awaited: self.told,
            calls: 0,
        }))
    }

    fn sink(&mut self, name: &str) -> Result<HostSink<CountedSink<'a>>, OpenFault> {
        self.made.reserve(1)?;
        let noted = String::from_str(self.alloc, name)?;
        self.made.push_reserved(noted);
        Ok(HostSink::new(CountedSink {
            writes: self.told,
            refuses: self.refuses,
        }))
    }
}

/// Whether a run over the faulty files with these words ends with this status, this many entries,
/// and this many streams whose faults couldn't be told. It promises nothing, so that no test
/// carries along what `run` promises.
fn ends_with<'a, R: Threads + Wait + RandomSource + Sync + Abort>(
    rt: &R,
    alloc: Global,
    words: &[&str],
    refuses: bool,
    counts: &'a Counts,
    expected: (u8, u64, usize),
) -> bool {
    let words = words_of(rt, alloc, words);
    let mut files = FaultyFiles {
        alloc,
        told: &counts.told,
        refuses,
        opened: Vec::new(alloc),
        made: Vec::new(alloc),
    };
    let report = run(
        rt,
        alloc,
        &words,
        &mut files,
        &mut other_sink(counts),
        &mut other_sink(counts),
        &mut Vec::new(alloc),
        &OpenGate,
    );
    is_report(report, expected)
}

/// A sink of the events or the errors.
fn other_sink(counts: &Counts) -> HostSink<CountedSink<'_>> {
    HostSink::new(CountedSink {
        writes: &counts.others,
        refuses: false,
    })
}

/// Whether the report has this status, this many entries, and this many streams whose faults
/// couldn't be told.
fn is_report<F: Files>(report: Report<F>, expected: (u8, u64, usize)) -> bool {
    let (status, entries, untold) = expected;
    report.status == status
        && report.history.length() == entries
        && untold_of(&report.streams) == untold
}

/// How many streams ended since their faults couldn't be told.
fn untold_of(ends: &[StreamEnd]) -> usize {
    ends.iter().filter(|end| **end == StreamEnd::Faults).count()
}

#[test]
fn a_fault_is_told_before_the_next_line_is_read(rt: HostRuntime) {
    let counts = Counts::new();
    let words = ["--faults", "f", "q", "s"];
    assert!(rt; ends_with(&rt, rt.alloc(), &words, false, &counts, (0, 2, 0)));
    assert!(rt; counts.told.load(SeqCst) == 1);
}

#[test]
fn a_stream_whose_faults_are_refused_ends_alone(rt: HostRuntime) {
    let counts = Counts::new();
    let words = ["--faults", "f", "--faults", "g", "q", "s", "t"];
    assert!(rt; ends_with(&rt, rt.alloc(), &words, true, &counts, (6, 3, 1)));
}
