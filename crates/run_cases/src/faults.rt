//! Runs over three streams beside readers, in which a call to the outside fails.

use crate::blocks::{WrittenBlocks, blocks_of};
use crate::given::{Faults, RunInput, Sizes, Texts};
use crate::left::RunOutput;
use crate::made::left_by;
use case_lines::{Fields, Output, decoded};
use query_file::{Compiled, read_queries};
use std::alloc::Global;
use std::random::RandomSource;
use std::sync::Wait;
use std::thread::Threads;

/// How many bytes a sink takes.
const ROOM: usize = 1 << 14;

/// What a run leaves behind in which these calls fail: nothing that is up to the machine.
pub fn answer_faults<R: RandomSource + Threads + Wait + Sync>(
    rt: &R,
    alloc: Global,
    out: &mut Output,
    fields: Fields,
) -> anyhow::Result<()> {
    let given = given(fields);
    let left = left_by(rt, alloc, &given)?;
    put_faults(alloc, out, given.texts.q.unwrap_or(&[]), &left)
}

/// What the fields give.
fn given<'a>(fields: Fields<'a>) -> RunInput<'a> {
    let mut fields = fields;
    RunInput {
        faults: Faults {
            opening: fields.number(),
            file: fields.next(),
            read: fields.number(),
            event: fields.number(),
            opened: fields.number(),
            error: fields.number(),
        },
        sizes: Sizes::of(fields.number() as usize, ROOM),
        words: fields.next(),
        texts: Texts {
            q: Some(fields.next()),
            a: Some(fields.next()),
            s: Some(fields.next()),
            t: Some(fields.next()),
            u: Some(fields.next()),
            ..Texts::none()
        },
        is_counted: true,
    }
}

/// Puts what a run with the queries of this field left behind.
fn put_faults(
    alloc: Global,
    out: &mut Output,
    queries: &[u8],
    left: &RunOutput,
) -> anyhow::Result<()> {
    let due = due_of(alloc, queries, left)?;
    out.put_shown(&left.status)?;
    put_extent(out, &left.events, &due.text)?;
    put_entries(out, left, &due.text)?;
    put_count(out, left.sources)?;
    put_count(out, left.sessions)?;
    put_replies(out, left)?;
    put_tallies(alloc, out, left, &due)?;
    out.put("|")?;
    out.put_bytes(&left.errors)
}

/// The text of a run's history, from scratch, and the events of those of its blocks that were
/// written whole.
fn due_of(alloc: Global, queries: &[u8], left: &RunOutput) -> anyhow::Result<WrittenBlocks> {
    let queries = queries_of(alloc, queries)?;
    blocks_of(alloc, &queries, left.history.as_slice(), left.events.len())
}

/// The queries that a field gives, and none where it has a fault.
fn queries_of(alloc: Global, text: &[u8]) -> anyhow::Result<Vec<Compiled>> {
    match read_queries(alloc, &decoded(alloc, text)?) {
        Ok(queries) => Ok(queries),
        Err(_) => Ok(Vec::new(alloc)),
    }
}

/// Puts how much of a text was written.
fn put_extent(out: &mut Output, written: &[u8], text: &[u8]) -> anyhow::Result<()> {
    out.put(if written.is_empty() {
        " none"
    } else if written == text {
        " whole"
    } else if text.starts_with(written) {
        " part"
    } else {
        " other"
    })
}

/// Puts how many entries a history has, or `-` where not all of its text was written, since it's up
/// to the machine then how far the streams come.
fn put_entries(out: &mut Output, left: &RunOutput, text: &[u8]) -> anyhow::Result<()> {
    if left.events.as_slice() == text {
        put_count(out, left.history.length() as usize)
    } else {
        out.put(" -")
    }
}

fn put_count(out: &mut Output, count: usize) -> anyhow::Result<()> {
    out.put(" ")?;
    out.put_shown(&count)
}

/// Puts how much of the text of its sessions a run wrote on its replies, or `-` where it has none.
fn put_replies(out: &mut Output, left: &RunOutput) -> anyhow::Result<()> {
    match &left.replies {
        Some(replies) => put_extent(out, replies, &left.answers),
        None => out.put(" -"),
    }
}

/// Puts whether the tally says what is due, and in which list it is.
fn put_tallies(
    alloc: Global,
    out: &mut Output,
    left: &RunOutput,
    due: &WrittenBlocks,
) -> anyhow::Result<()> {
    let wanted = format!(in alloc; "tally {} {}", due.added, due.retracted)?;
    put_said(out, &left.stayed, "standing", wanted.as_bytes())?;
    put_said(out, &left.gone, "left", wanted.as_bytes())
}

/// Puts for each object of a list whether it says this, and the name of the list.
fn put_said(out: &mut Output, texts: &[Vec<u8>], list: &str, wanted: &[u8]) -> anyhow::Result<()> {
    for text in texts {
        let is_due = text.as_slice() == wanted;
        out.put(if is_due { " yes " } else { " no " })?;
        out.put(list)?;
    }
    Ok(())
}
