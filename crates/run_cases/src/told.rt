//! Runs over two streams, whose faulty lines are told on sinks of their own.

use crate::given::{Faults, RunInput, Sizes, Texts};
use crate::left::RunOutput;
use crate::made::left_by;
use crate::readers::put_counts;
use case_lines::{Fields, Output};
use std::alloc::Global;
use std::random::RandomSource;
use std::sync::Wait;
use std::thread::Threads;

/// How many bytes a sink takes.
const ROOM: usize = 1 << 14;

/// The status of a run over two streams, how many entries its history has of each of the first
/// streams, how many in all, what it tells on the errors, and what on the sink of each stream's
/// faulty lines.
pub fn answer_told<R: RandomSource + Threads + Wait + Sync>(
    rt: &R,
    alloc: Global,
    out: &mut Output,
    fields: Fields,
) -> anyhow::Result<()> {
    put_told(out, &left_by(rt, alloc, &given(fields))?)
}

/// What the fields give.
fn given<'a>(fields: Fields<'a>) -> RunInput<'a> {
    let mut fields = fields;
    RunInput {
        sizes: Sizes::of(fields.number() as usize, ROOM),
        faults: Faults {
            opening: fields.number(),
            opened: fields.number(),
            ..Faults::none()
        },
        words: fields.next(),
        texts: Texts {
            q: Some(fields.next()),
            s: Some(fields.next()),
            t: Some(fields.rest()),
            ..Texts::none()
        },
        is_counted: false,
    }
}

/// Puts what a run over two streams left behind.
fn put_told(out: &mut Output, left: &RunOutput) -> anyhow::Result<()> {
    out.put_shown(&left.status)?;
    put_counts(out, left.history.as_slice())?;
    out.put("|")?;
    out.put_bytes(&left.errors)?;
    put_faults(out, &left.faults)
}

/// Puts what was told of the faulty lines of each stream, where it has a sink for them.
pub fn put_faults(out: &mut Output, faults: &[Option<Vec<u8>>]) -> anyhow::Result<()> {
    for told in faults {
        if let Some(bytes) = told {
            out.put("|")?;
            out.put_bytes(bytes)?;
        }
    }
    Ok(())
}
