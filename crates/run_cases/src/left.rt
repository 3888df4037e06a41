//! What a run leaves behind, as bytes.

use crate::outside::RunArguments;
use kept_list::KeptList;
use rpq_base::Entry;
use rpq_io::{MemoryFiles, MemorySink, MemorySource};
use rpq_run::{Answered, ReaderEnd, ReaderOutcome, Report};
use standing::Standing;
use std::alloc::{AllocError, Global};
use std::mem;
use text_parts::push_decimal;

/// What a run leaves behind.
#[derive(Drop)]
pub struct RunOutput {
    pub status: u8,
    pub history: KeptList<Entry>,
    /// How many sources the report has.
    pub sources: usize,
    /// How many sessions the report has.
    pub sessions: usize,
    pub events: Vec<u8>,
    pub errors: Vec<u8>,
    /// What the run wrote on the replies, if it has a sink for them.
    pub replies: Option<Vec<u8>>,
    /// The line of each session, and behind it what its asks were answered.
    pub answers: Vec<u8>,
    /// What the run left of each reader.
    pub readers: Vec<ReaderLeft>,
    /// The window that the run saved, if it has a sink for it.
    pub saved: Option<Vec<u8>>,
    /// What the run told of the faulty lines of each stream, if it has a sink for them.
    pub faults: Vec<Option<Vec<u8>>>,
    /// What each of the objects says that stayed.
    pub stayed: Vec<Vec<u8>>,
    /// What each of the objects says that left.
    pub gone: Vec<Vec<u8>>,
}

/// What a run leaves of a reader.
#[derive(Drop)]
pub struct ReaderLeft {
    pub end: ReaderEnd,
    /// What the run wrote on the reader's replies.
    pub replies: Vec<u8>,
}

/// What a run leaves behind with this report, these sinks and these objects.
pub fn left_of(
    alloc: Global,
    outside: RunArguments,
    standing: Vec<Box<dyn Standing>>,
    report: Report<MemoryFiles>,
) -> anyhow::Result<RunOutput> {
    let mut report = report;
    let mut left = RunOutput::new(alloc, report.status);
    left.note(alloc, &outside, &standing, &report)?;
    mem::swap(&mut left.history, &mut report.history);
    Ok(left)
}

impl RunOutput {
    /// Nothing but a status.
    fn new(alloc: Global, status: u8) -> RunOutput {
        RunOutput {
            status,
            history: KeptList::new(alloc),
            sources: 0,
            sessions: 0,
            events: Vec::new(alloc),
            errors: Vec::new(alloc),
            replies: None,
            answers: Vec::new(alloc),
            readers: Vec::new(alloc),
            saved: None,
            faults: Vec::new(alloc),
            stayed: Vec::new(alloc),
            gone: Vec::new(alloc),
        }
    }

    /// Notes all but the history.
    fn note(
        &mut self,
        alloc: Global,
        outside: &RunArguments,
        standing: &[Box<dyn Standing>],
        report: &Report<MemoryFiles>,
    ) -> anyhow::Result<()> {
        self.sources = report.sources.len();
        self.sessions = report.sessions.len();
        self.events.extend_from_slice(outside.events.bytes())?;
        self.errors.extend_from_slice(outside.errors.bytes())?;
        self.replies = bytes_of(alloc, &report.replies)?;
        self.saved = bytes_of(alloc, &report.save)?;
        put_told(alloc, &mut self.faults, &report.faults)?;
        put_sessions(&mut self.answers, &report.sessions)?;
        put_readers(alloc, &mut self.readers, &report.readers)?;
        put_said(&mut self.stayed, standing)?;
        put_said(&mut self.gone, &report.left)
    }
}

/// What is written on a sink, if there is one.
fn bytes_of(alloc: Global, sink: &Option<MemorySink>) -> Result<Option<Vec<u8>>, AllocError> {
    match sink {
        Some(sink) => Ok(Some(Vec::from_slice(alloc, sink.bytes())?)),
        None => Ok(None),
    }
}

/// Puts what is written on each of some sinks, as far as they are there.
fn put_told(
    alloc: Global,
    told: &mut Vec<Option<Vec<u8>>>,
    sinks: &[Option<MemorySink>],
) -> anyhow::Result<()> {
    for sink in sinks {
        told.push(bytes_of(alloc, sink)?)?;
    }
    Ok(())
}

/// Puts what is left of each reader.
fn put_readers(
    alloc: Global,
    left: &mut Vec<ReaderLeft>,
    readers: &[ReaderOutcome<MemorySource, MemorySink>],
) -> anyhow::Result<()> {
    for reader in readers {
        let replies = Vec::from_slice(alloc, reader.replies.bytes())?;
        left.push(ReaderLeft {
            end: reader.end,
            replies,
        })?;
    }
    Ok(())
}

/// Puts the line of each session, and behind it what its asks were answered.
fn put_sessions(text: &mut Vec<u8>, sessions: &[Vec<Answered>]) -> Result<(), AllocError> {
    for (place, answers) in sessions.iter().enumerate() {
        text.extend_from_slice(b"session ")?;
        push_decimal(text, place as u64 + 1)?;
        text.push(b'\n')?;
        put_answers(text, answers)?;
    }
    Ok(())
}

fn put_answers(text: &mut Vec<u8>, answers: &[Answered]) -> Result<(), AllocError> {
    for answered in answers {
        text.extend_from_slice(&answered.text)?;
    }
    Ok(())
}

/// Puts what each of some objects says.
fn put_said(texts: &mut Vec<Vec<u8>>, objects: &[Box<dyn Standing>]) -> anyhow::Result<()> {
    for object in objects {
        texts.push(object.say()?)?;
    }
    Ok(())
}
