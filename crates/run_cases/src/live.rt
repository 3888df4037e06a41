//! Runs over one stream, beside which readers ask, in which a call to the outside fails.

use crate::given::{Faults, RunInput, Sizes, Texts};
use crate::left::{ReaderLeft, RunOutput};
use crate::made::left_by;
use case_lines::{Fields, Output};
use rpq_run::ReaderEnd;
use std::alloc::Global;
use std::random::RandomSource;
use std::sync::Wait;
use std::thread::Threads;

/// How many bytes a sink takes.
const ROOM: usize = 1 << 14;

/// The status of a run, what it writes on the events, what it tells on the errors, what it writes
/// on the replies to the sessions, if it has such, and for each reader how it ended and what it was
/// answered.
pub fn answer_live<R: RandomSource + Threads + Wait + Sync>(
    rt: &R,
    alloc: Global,
    out: &mut Output,
    fields: Fields,
) -> anyhow::Result<()> {
    put_live(out, &left_by(rt, alloc, &given(fields))?)
}

/// What the fields give.
fn given<'a>(fields: Fields<'a>) -> RunInput<'a> {
    let mut fields = fields;
    RunInput {
        sizes: Sizes::of(fields.number() as usize, ROOM),
        faults: Faults {
            opening: fields.number(),
            file: fields.next(),
            read: fields.number(),
            event: fields.number(),
            opened: fields.number(),
            error: 0,
        },
        words: fields.next(),
        texts: Texts {
            q: Some(fields.next()),
            a: Some(fields.next()),
            s: Some(fields.next()),
            t: Some(fields.next()),
            u: Some(fields.rest()),
            ..Texts::none()
        },
        is_counted: false,
    }
}

/// Puts what a run left behind.
fn put_live(out: &mut Output, left: &RunOutput) -> anyhow::Result<()> {
    out.put_shown(&left.status)?;
    out.put(" ")?;
    out.put_bytes(&left.events)?;
    out.put("|")?;
    out.put_bytes(&left.errors)?;
    if let Some(replies) = &left.replies {
        out.put("|")?;
        out.put_bytes(replies)?;
    }
    for reader in &left.readers {
        put_reader(out, reader)?;
    }
    Ok(())
}

/// Puts how a reader ended, and what it was answered.
fn put_reader(out: &mut Output, reader: &ReaderLeft) -> anyhow::Result<()> {
    out.put("|")?;
    put_end(out, reader.end)?;
    out.put(" ")?;
    out.put_bytes(&reader.replies)
}

/// Puts how a reader ended.
fn put_end(out: &mut Output, end: ReaderEnd) -> anyhow::Result<()> {
    match end {
        ReaderEnd::Left { line } => {
            out.put("left ")?;
            out.put_shown(&line)
        }
        ReaderEnd::Whole => out.put("whole"),
        ReaderEnd::LongText => out.put("long"),
        ReaderEnd::Read => out.put("read"),
        ReaderEnd::Write => out.put("write"),
        ReaderEnd::Closed(_) => out.put("closed"),
        ReaderEnd::Memory => out.put("memory"),
    }
}
