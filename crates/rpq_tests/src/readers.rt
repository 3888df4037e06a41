//! A reader beside a stream and the engine: it is answered before the next line is there, and while
//! a worker on trees is at work.

use crate::memory::words_of;
use rpq_io::{Files, Gate, HostSink, HostSource, OpenFault, Who};
use rpq_run::{Answered, Report, run};
use std::alloc::Global;
use std::hint::spin_loop;
use std::io;
use std::io::{ErrorKind, Read, Write};
use std::process::Abort;
use std::random::RandomSource;
use std::sync::Wait;
use std::sync::atomic::AtomicU64;
use std::sync::atomic::Ordering::SeqCst;
use std::thread::Threads;

/// For how many turns one waits for another.
const TURNS: u32 = 10_000_000;

/// The queries file.
const QUERIES: &str = "query q window 100 slide 10 arbitrary: a/b\n";

/// Takes whatever is written on it.
#[derive(Drop)]
struct OpenSink;

impl Write for OpenSink {
    fn write(&mut self, buf: &[u8]) -> io::Result<usize> {
        Ok(buf.len())
    }

    fn flush(&mut self) -> io::Result<()> {
        Ok(())
    }
}

/// Whether the count comes to so many within so many turns.
fn comes_to(count: &AtomicU64, wanted: u64) -> bool {
    for _ in 0..TURNS {
        if count.load(SeqCst) >= wanted {
            return true;
        }
        spin_loop();
    }
    false
}

/// Gives one text and then another, and the second only once a reader was answered.
#[derive(Drop)]
struct WatchedSource<'a> {
    first: &'a str,
    second: &'a str,
    replies: &'a AtomicU64,
    calls: u8,
}

impl<'a> Read for WatchedSource<'a> {
    fn read(&mut self, buf: &mut [u8]) -> io::Result<usize> {
        self.calls = self.calls.saturating_add(1);
        let text = match self.calls {
            1 => self.first,
            2 if self.second.is_empty() => "",
            2 if comes_to(self.replies, 1) => self.second,
            2 => return Err(io::Error::from(ErrorKind::Other)),
            _ => "",
        };
        let count = text.len().min(buf.len());
        buf[..count].copy_from_slice(&text.as_bytes()[..count]);
        Ok(count)
    }
}

/// The files `q`, `a` and `s`, of which the last is watched, and the names that were opened to read
/// and to write.
#[derive(Drop)]
struct WatchedFiles<'a> {
    alloc: Global,
    asks: &'a str,
    replies: &'a AtomicU64,
    opened: Vec<String>,
    made: Vec<String>,
}

impl<'a> Files for WatchedFiles<'a> {
    ghost use Rattle.std.specs.Prelude.{None, map, string_bytes};

    type Source = HostSource<WatchedSource<'a>>;

    type Sink = HostSink<OpenSink>;

    ghost holds = { λ _ _. None };

    ghost opened = { λ files. map (λ name. string_bytes name) files.opened.items };

    ghost made = { λ files. map (λ name. string_bytes name) files.made.items };

    ghost unread = { λ _ _. 0 };

    ghost unmade = { λ _ _. 0 };

    fn source(&mut self, name: &str) -> Result<HostSource<WatchedSource<'a>>, OpenFault> {
        self.opened.reserve(1)?;
        let noted = String::from_str(self.alloc, name)?;
        self.opened.push_reserved(noted);
        let (first, second) = match name {
            "q" => (QUERIES, ""),
            "a" => (self.asks, ""),
            _ => ("1 x a y\n", "2 y b z\n"),
        };
        Ok(HostSource::new(WatchedSource {
            first,
            second,
            replies: self.replies,
            calls: 0,
        }))
    }

    fn sink(&mut self, name: &str) -> Result<HostSink<OpenSink>, OpenFault> {
        self.made.reserve(1)?;
        let noted = String::from_str(self.alloc, name)?;
        self.made.push_reserved(noted);
        Ok(HostSink::new(OpenSink))
    }
}

/// Counts the answers of the first session, whose number is 1, and adds up their positions.
#[derive(Drop)]
struct CountingGate {
    replies: AtomicU64,
    positions: AtomicU64,
}

impl Gate for CountingGate {
    fn pass(&self, _who: Who) {}

    fn replied(&self, session: u32, position: u64) {
        if session == 1 {
            self.positions.fetch_add(position, SeqCst);
            self.replies.fetch_add(1, SeqCst);
        }
    }
}

/// Keeps the reader at its first answer until a worker on trees passes behind it, and that worker
/// until the second answer.
#[derive(Drop)]
struct HoldingGate {
    replies: AtomicU64,
    passes: AtomicU64,
    /// How many gave up waiting.
    alone: AtomicU64,
}

impl HoldingGate {
    fn note(&self, has_come: bool) {
        if !has_come {
            self.alone.fetch_add(1, SeqCst);
        }
    }
}

impl Gate for HoldingGate {
    fn pass(&self, who: Who) {
        if let Who::Trees(_) = who {
            if self.replies.load(SeqCst) == 1 {
                self.passes.fetch_add(1, SeqCst);
                self.note(comes_to(&self.replies, 2));
            }
        }
    }

    fn replied(&self, _session: u32, _position: u64) {
        if self.replies.fetch_add(1, SeqCst) == 0 {
            self.note(comes_to(&self.passes, 1));
        }
    }
}

/// Whether the one session of a run over the watched files, behind this gate, is answered so, and
/// the run is done. It promises nothing, so that no test carries along what `run` promises.
fn is_answered<R: Threads + Wait + RandomSource + Sync + Abort, G: Gate>(
    rt: &R,
    alloc: Global,
    asks: &str,
    replies: &AtomicU64,
    gate: &G,
    wanted: [&[u8]; 2],
) -> bool {
    let words = words_of(rt, alloc, &["--asks", "a", "--replies", "r", "q", "s"]);
    let mut files = WatchedFiles {
        alloc,
        asks,
        replies,
        opened: Vec::new(alloc),
        made: Vec::new(alloc),
    };
    let report = run(
        rt,
        alloc,
        &words,
        &mut files,
        &mut HostSink::new(OpenSink),
        &mut HostSink::new(OpenSink),
        &mut Vec::new(alloc),
        gate,
    );
    has_answers(report, wanted)
}

/// Whether the run of this report is done, and its one session was answered so.
fn has_answers<F: Files>(report: Report<F>, wanted: [&[u8]; 2]) -> bool {
    report.status == 0 && is_one_answered_so(&report.sessions, wanted)
}

/// Whether there is one session, which was answered so.
fn is_one_answered_so(sessions: &[Vec<Answered>], wanted: [&[u8]; 2]) -> bool {
    match sessions {
        [answers] => are_so(answers, wanted),
        _ => false,
    }
}

/// Whether these are the texts of the answers.
fn are_so(answers: &[Answered], wanted: [&[u8]; 2]) -> bool {
    match answers {
        [one, two] => has_text(one, wanted[0]) && has_text(two, wanted[1]),
        _ => false,
    }
}

/// Whether this is the text of the answer.
fn has_text(answered: &Answered, wanted: &[u8]) -> bool {
    answered.text.as_slice() == wanted
}

#[test]
fn a_reply_before_the_next_line(rt: HostRuntime) {
    let gate = CountingGate {
        replies: AtomicU64::new(0),
        positions: AtomicU64::new(0),
    };
    let wanted = [b"@1 wait 1\n".as_slice(), b"@2 wait 2\n".as_slice()];
    let asks = "session\nwait 1\nwait 2\n";
    assert!(rt; is_answered(&rt, rt.alloc(), asks, &gate.replies, &gate, wanted));
    assert!(rt; gate.replies.load(SeqCst) == 2);
    assert!(rt; gate.positions.load(SeqCst) == 3);
}

#[test]
fn a_reader_beside_the_engine(rt: HostRuntime) {
    let gate = HoldingGate {
        replies: AtomicU64::new(0),
        passes: AtomicU64::new(0),
        alone: AtomicU64::new(0),
    };
    let wanted = [b"@1 wait 1\n".as_slice(), b"@1 count q 0\n".as_slice()];
    let asks = "session\nwait 1\ncount q\n";
    assert!(rt; is_answered(&rt, rt.alloc(), asks, &gate.replies, &gate, wanted));
    assert!(rt; gate.alone.load(SeqCst) == 0);
}
