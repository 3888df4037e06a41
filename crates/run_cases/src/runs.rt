//! Runs over one stream, of which all bytes are told.

use crate::given::{Faults, RunInput, Sizes, Texts};
use crate::left::RunOutput;
use crate::made::left_by;
use crate::told::put_faults;
use case_lines::{Fields, Output};
use std::alloc::Global;
use std::random::RandomSource;
use std::sync::Wait;
use std::thread::Threads;

/// How many bytes a sink takes.
const ROOM: usize = 1 << 14;

/// The status of a run, what it writes on the events, what it tells on the errors, the window that
/// it saves, if it does, and what it tells of faulty lines, if it has a sink for them.
pub fn answer_run<R: RandomSource + Threads + Wait + Sync>(
    rt: &R,
    alloc: Global,
    out: &mut Output,
    fields: Fields,
) -> anyhow::Result<()> {
    put_run(out, &left_by(rt, alloc, &run_given(fields))?)
}

/// The same of a run of which further calls fail.
pub fn answer_calls<R: RandomSource + Threads + Wait + Sync>(
    rt: &R,
    alloc: Global,
    out: &mut Output,
    fields: Fields,
) -> anyhow::Result<()> {
    put_run(out, &left_by(rt, alloc, &calls_given(fields))?)
}

/// What the fields of `run` give.
fn run_given<'a>(fields: Fields<'a>) -> RunInput<'a> {
    let mut fields = fields;
    let sizes = Sizes::of(fields.number() as usize, ROOM);
    let opening = fields.number();
    let words = fields.next();
    let texts = Texts {
        q: Some(fields.next()),
        s: Some(fields.next()),
        w: Some(fields.next()),
        ..Texts::none()
    };
    let faults = Faults {
        opening,
        file: b"w",
        read: fields.number(),
        opened: fields.number(),
        ..Faults::none()
    };
    RunInput {
        words,
        texts,
        sizes,
        faults,
        is_counted: false,
    }
}

/// What the fields of `calls` give.
fn calls_given<'a>(fields: Fields<'a>) -> RunInput<'a> {
    let mut fields = fields;
    let sizes = Sizes {
        read: fields.number() as usize,
        write: fields.number() as usize,
        events: fields.number() as usize,
        others: ROOM,
    };
    let faults = Faults {
        opening: fields.number(),
        file: fields.next(),
        read: fields.number(),
        event: fields.number(),
        error: fields.number(),
        ..Faults::none()
    };
    let words = fields.next();
    let texts = Texts {
        q: Some(fields.next()),
        s: Some(fields.next()),
        ..Texts::none()
    };
    RunInput {
        words,
        texts,
        sizes,
        faults,
        is_counted: false,
    }
}

/// Puts what a run left behind.
fn put_run(out: &mut Output, left: &RunOutput) -> anyhow::Result<()> {
    out.put_shown(&left.status)?;
    out.put(" ")?;
    out.put_bytes(&left.events)?;
    out.put("|")?;
    out.put_bytes(&left.errors)?;
    if let Some(window) = &left.saved {
        out.put("|")?;
        out.put_bytes(window)?;
    }
    put_faults(out, &left.faults)
}
