//! Runs over files and sinks in memory, in which no call fails unless it is told to.

use rpq_io::{Files, Gate, MemoryFiles, MemorySink};
use rpq_run::{Report, run};
use standing::Standing;
use std::alloc::Global;
use std::mem;
use std::process::Abort;
use std::random::RandomSource;
use std::sync::Wait;
use std::thread::Threads;

/// A query for all paths of one label.
pub const PATHS: &str = "query q window 100 slide 10 arbitrary: a+\n";

/// A stream that makes three trees, and takes the edge out on which all of one tree hangs. Its four
/// entries bring one, two, three and two events of [`PATHS`].
pub const CYCLE: &str = "1 r a x\n1 x a y\n1 y a x\n1 r a x -\n";

/// What a run is given: its words, the files, the sinks of the events and the errors, and the
/// objects that are told of the events.
#[derive(Drop)]
pub struct TestRun {
    pub words: Vec<String>,
    pub files: MemoryFiles,
    pub events: MemorySink,
    pub errors: MemorySink,
    pub standing: Vec<Box<dyn Standing>>,
}

/// What the tests look at of a run's report: its status, how many entries its history has, and the
/// objects that left.
#[derive(Drop)]
pub struct RunSummary {
    pub status: u8,
    pub entries: usize,
    pub left: Vec<Box<dyn Standing>>,
}

/// What a run is given that has these words after the program's name, the files `q`, `s` and `t` of
/// these texts, and these objects; the writes of the events with these numbers fail.
pub fn given_of(
    rt: &impl Abort,
    alloc: Global,
    words: &[&str],
    texts: [&str; 3],
    failing_writes: &[u64],
    standing: Vec<Box<dyn Standing>>,
) -> TestRun {
    TestRun {
        words: words_of(rt, alloc, words),
        files: files_of(rt, alloc, texts),
        events: sink_of(rt, alloc, 4096, 4096, failing_writes),
        errors: sink_of(rt, alloc, 4096, 64, &[]),
        standing,
    }
}

/// The same without objects, where no write fails.
pub fn plainly_given(rt: &impl Abort, alloc: Global, words: &[&str], texts: [&str; 3]) -> TestRun {
    given_of(rt, alloc, words, texts, &[], Vec::new(alloc))
}

/// The outcome of a run behind this gate. It promises nothing, so that no test carries along what
/// `run` promises.
pub fn outcome_of<R: Threads + Wait + RandomSource + Sync, G: Gate>(
    rt: &R,
    alloc: Global,
    given: &mut TestRun,
    gate: &G,
) -> RunSummary {
    let report = run(
        rt,
        alloc,
        &given.words,
        &mut given.files,
        &mut given.events,
        &mut given.errors,
        &mut given.standing,
        gate,
    );
    looked_at(alloc, report)
}

/// What the tests look at of this report.
fn looked_at<F: Files>(alloc: Global, report: Report<F>) -> RunSummary {
    let mut report = report;
    let mut left = Vec::new(alloc);
    mem::swap(&mut left, &mut report.left);
    RunSummary {
        status: report.status,
        entries: report.history.length() as usize,
        left,
    }
}

/// The program's name, and these words after it.
pub fn words_of(rt: &impl Abort, alloc: Global, rest: &[&str]) -> Vec<String> {
    let mut words = Vec::new(alloc);
    add_word(rt, alloc, &mut words, "rpq");
    for word in rest {
        add_word(rt, alloc, &mut words, word);
    }
    words
}

/// Adds one word more.
fn add_word(rt: &impl Abort, alloc: Global, words: &mut Vec<String>, word: &str) {
    let word = String::from_str(alloc, word).expect(rt, "memory");
    words.push(word).expect(rt, "memory");
}

/// The files `q`, `s` and `t` of these texts.
fn files_of(rt: &impl Abort, alloc: Global, texts: [&str; 3]) -> MemoryFiles {
    let [queries, first, second] = texts;
    let mut files = MemoryFiles::new(alloc, 0, 1, &[], &[]).expect(rt, "memory");
    files
        .add("q", queries.as_bytes(), 64, &[])
        .expect(rt, "memory");
    files
        .add("s", first.as_bytes(), 64, &[])
        .expect(rt, "memory");
    files
        .add("t", second.as_bytes(), 4, &[])
        .expect(rt, "memory");
    files
}

/// A sink in memory with this much room, which takes at most a piece in a write; the writes with
/// these numbers fail.
pub fn sink_of(
    rt: &impl Abort,
    alloc: Global,
    room: usize,
    piece: usize,
    failing: &[u64],
) -> MemorySink {
    MemorySink::new(alloc, room, piece.max(1), failing).expect(rt, "memory")
}

/// Whether this text is what went out on the sink.
pub fn has_written(sink: &MemorySink, text: &str) -> bool {
    sink.bytes() == text.as_bytes()
}
