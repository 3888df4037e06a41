//! Runs over several streams beside readers, of which the replies are told.

use crate::given::{Faults, RunInput, Sizes, Texts};
use crate::left::RunOutput;
use crate::made::left_by;
use case_lines::{Fields, Output};
use rpq_base::Entry;
use std::alloc::Global;
use std::random::RandomSource;
use std::sync::Wait;
use std::thread::Threads;

/// How many bytes a sink takes.
const ROOM: usize = 1 << 20;

/// How many streams are told apart in the answer.
const STREAMS: u32 = 4;

/// The status of a run over the files of four fields, how many entries its history has of each of
/// the first streams, how many in all, what it tells on the errors, and what on the replies. The
/// order in which the tuples of several streams come isn't told.
pub fn answer_readers<R: RandomSource + Threads + Wait + Sync>(
    rt: &R,
    alloc: Global,
    out: &mut Output,
    fields: Fields,
) -> anyhow::Result<()> {
    put_readers(out, &left_by(rt, alloc, &given(fields))?)
}

/// What the fields give.
fn given<'a>(fields: Fields<'a>) -> RunInput<'a> {
    let mut fields = fields;
    RunInput {
        sizes: Sizes::of(fields.number() as usize, ROOM),
        words: fields.next(),
        texts: Texts {
            q: Some(fields.next()),
            a: Some(fields.next()),
            s: Some(fields.next()),
            t: Some(fields.rest()),
            ..Texts::none()
        },
        faults: Faults::none(),
        is_counted: false,
    }
}

/// Puts what a run with readers left behind.
fn put_readers(out: &mut Output, left: &RunOutput) -> anyhow::Result<()> {
    out.put_shown(&left.status)?;
    put_counts(out, left.history.as_slice())?;
    out.put("|")?;
    out.put_bytes(&left.errors)?;
    out.put("|")?;
    match &left.replies {
        Some(replies) => out.put_bytes(replies),
        None => Ok(()),
    }
}

/// Puts how many entries are of each of the first streams, and how many there are.
pub fn put_counts(out: &mut Output, history: &[Entry]) -> anyhow::Result<()> {
    for stream in 1..=STREAMS {
        out.put(" ")?;
        out.put_shown(&count_of(history, stream))?;
    }
    out.put(" ")?;
    out.put_shown(&history.len())
}

/// How many entries are of the stream with this number.
fn count_of(history: &[Entry], stream: u32) -> usize {
    history
        .iter()
        .filter(|entry| entry.stream == stream)
        .count()
}
