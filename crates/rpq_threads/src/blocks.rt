//! The blocks of entries are written, and the caller's objects are told of their events.

ghost use Rattle.std.specs.Prelude.{◌≡◌, ◌<◌, ◌≤◌, ◌+◌, ◌^◌, length, All, OnOk, OnErr, IfErr, Err};
ghost use Rattle.std.specs.Io.KnownBytes.{append_known};
ghost use Rattle.std.specs.Result.{result_err};
ghost use Rattle.rpq_base.specs.Plain.{IsPlain};
ghost use Rattle.rpq_io.specs.Counts.{CountsFault};
ghost use Rattle.rpq_io.specs.Writes.{WritesProperPrefix};
ghost use Rattle.rpq_text.specs.Definitions.{definitions_of};
ghost use Rattle.rpq_text.specs.Text.{block};
ghost use Rattle.standing.specs.Circles.{as_seen};
ghost use Rattle.rpq_threads.specs.Blocks.{WritesBlocks};

use engine_loop::{StepSink, tell_events};
use entry_steps::Step;
use history_model::Why;
use query_file::Compiled;
use rpq_base::Entry;
use rpq_io::{Sink, put_all};
use rpq_text::{make_block, make_blocks};
use standing::{Circle, Standing};
use std::alloc::Global;

/// The most lines that blocks have together which are written at once.
const LINES_AT_ONCE: usize = 1 << 14;

/// The fewest bytes that a line of a join is taken to have.
const LEAST_LINE: usize = 16;

/// Where the blocks of entries are written, and the objects that are told of their events.
#[derive(Drop)]
pub struct Blocks<'a, K, O> {
    pub text: BlockText,
    /// How many blocks were written.
    pub count: u64,
    pub events: &'a mut K,
    pub circle: Circle<O>,
}

/// The text of the block that was written last, whose memory the next one takes, and the allocator
/// for what its events are told by.
#[derive(Drop)]
pub struct BlockText {
    pub alloc: Global,
    pub bytes: Vec<u8>,
}

impl<'a, K: Sink, O: Standing> StepSink for Blocks<'a, K, O> {
    ghost use Rattle.rpq_threads.specs.Blocks.{WritesSteps};

    ghost taken = { λ blocks. blocks.count };

    ghost takes = { λ queries entries steps why old new.
        WritesSteps K.written K.faults O.seen queries entries steps why old new };

    /// Writes the block of each entry, and tells the objects of its events once it is written.
    fn take(
        &mut self,
        queries: &[Compiled],
        entries: &[Entry],
        steps: &[Step<'_>],
    ) -> Result<(), Why> {
        write_front(
            &mut self.text,
            queries,
            self.count + 1,
            entries,
            steps,
            self.events,
            &mut self.circle,
        )?;
        self.count += entries.len() as u64;
        Ok(())
    }

    fn goes_on() {}
}

/// Writes the block of each of the entries, the first of which stands at this position, counted
/// from 1, with the step in the entry's place, and tells the objects of the events of the blocks
/// that were written whole. Where no object hears of them, all blocks go out in one write, unless
/// they are long or there is no memory for that; else each goes out by itself.
fn write_front<K: Sink, O: Standing>(
    text: &mut BlockText,
    queries: &[Compiled],
    position: u64,
    entries: &[Entry],
    steps: &[Step<'_>],
    events: &mut K,
    circle: &mut Circle<O>,
) -> Result<(), Why>
    requires plain { All IsPlain entries.now }
    requires numbers { All (λ step. All (λ event. event.query < length queries.now) step.events)
        steps.now }
    requires as_many { length steps.now ≡ length entries.now }
    requires short { position + length entries.now < 2 ^ 62 }
    ensures blocks { WritesBlocks (definitions_of queries.now) position entries.now steps.now
        (result_err result) (K.written events.old) (K.written events.new)
        (as_seen O.seen circle.old) (as_seen O.seen circle.new) }
    ensures counted { CountsFault (result ≡ Err Why.Write)
        (K.faults events.old) (K.faults events.new) }
{
    if circle.members().is_empty() && are_few(steps) {
        if let Ok(()) = make_blocks(&mut text.bytes, position, entries, steps, queries) {
            return put_text(events, &text.bytes);
        }
    }
    write_blocks(text, queries, position, entries, steps, events, circle)
}

/// Whether blocks with these steps are short enough to be kept in memory together.
fn are_few(steps: &[Step<'_>]) -> bool {
    let mut lines: usize = 0;
    for step in steps {
        lines = lines.saturating_add(step.events.len());
        lines = lines.saturating_add(step.joined.len() / LEAST_LINE);
    }
    lines <= LINES_AT_ONCE
}

/// Writes this text on the events. The only reason why not all of it was written is
/// [`Why::Write`].
fn put_text<K: Sink>(events: &mut K, text: &[u8]) -> Result<(), Why>
    ensures ok { OnOk result
        (K.written events.new ≡ append_known (K.written events.old) text.now) }
    ensures part { OnErr result
        (WritesProperPrefix text.now (K.written events.old) (K.written events.new)) }
    ensures cause { IfErr result (λ why. why ≡ Why.Write) }
    ensures counted { CountsFault (result ≡ Err Why.Write)
        (K.faults events.old) (K.faults events.new) }
{
    match put_all(events, text) {
        Ok(()) => Ok(()),
        Err(_) => Err(Why::Write),
    }
}

/// Writes the block of each of the entries by itself, as [`write_front`] does. The objects are told
/// of an entry's events as soon as its block was written whole.
fn write_blocks<K: Sink, O: Standing>(
    text: &mut BlockText,
    queries: &[Compiled],
    position: u64,
    entries: &[Entry],
    steps: &[Step<'_>],
    events: &mut K,
    circle: &mut Circle<O>,
) -> Result<(), Why>
    requires plain { All IsPlain entries.now }
    requires numbers { All (λ step. All (λ event. event.query < length queries.now) step.events)
        steps.now }
    requires as_many { length steps.now ≡ length entries.now }
    requires short { position + length entries.now < 2 ^ 62 }
    ensures blocks { WritesBlocks (definitions_of queries.now) position entries.now steps.now
        (result_err result) (K.written events.old) (K.written events.new)
        (as_seen O.seen circle.old) (as_seen O.seen circle.new) }
    ensures counted { CountsFault (result ≡ Err Why.Write)
        (K.faults events.old) (K.faults events.new) }
{
    for (i, entry) in entries.iter().enumerate() {
        let step = &steps[i];
        write_block(text, queries, position + i as u64, entry, step, events)?;
        let Ok(()) = tell_events(text.alloc, circle, &step.events) else {
            return Err(Why::Memory);
        };
    }
    Ok(())
}

/// Writes the block of the entry at this position, counted from 1, with what the entry brings.
fn write_block<K: Sink>(
    text: &mut BlockText,
    queries: &[Compiled],
    position: u64,
    entry: &Entry,
    step: &Step<'_>,
    events: &mut K,
) -> Result<(), Why>
    requires plain { IsPlain entry.now }
    requires numbers { All (λ event. event.query < length queries.now) step.now.events }
    ensures ok { OnOk result (K.written events.new ≡ append_known (K.written events.old)
        (block (definitions_of queries.now) position entry.now step.now)) }
    ensures write { result ≡ Err Why.Write → WritesProperPrefix
        (block (definitions_of queries.now) position entry.now step.now)
        (K.written events.old) (K.written events.new) }
    ensures memory { result ≡ Err Why.Memory → K.written events.new ≡ K.written events.old }
    ensures counted { CountsFault (result ≡ Err Why.Write)
        (K.faults events.old) (K.faults events.new) }
{
    let Ok(()) = make_block(&mut text.bytes, position, entry, step, queries) else {
        return Err(Why::Memory);
    };
    let Ok(()) = put_all(events, &text.bytes) else {
        return Err(Why::Write);
    };
    Ok(())
}
