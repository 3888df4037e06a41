//! The saved window, which is written line by line.

ghost use Rattle.std.specs.Prelude.{◌≡◌, ◌∷◌, [], ◌++◌, All, Ok, true, false, not, IfOk};
ghost use Rattle.rpq_base.specs.Plain.{IsPlain, IsPlainTuple};
ghost use Rattle.text_parts.specs.Lines.{line_feed};
ghost use Rattle.tuple_text.specs.Written.{written};
ghost use Rattle.saved_window.specs.Saved.{saved};
ghost use Rattle.saved_window.specs.SavedText.{saved_text};
ghost use Rattle.rpq_run.specs.Ending.{is_left_out};
ghost use Rattle.rpq_run.specs.Parts.{WritesIfThere, WritesPart};
ghost use Rattle.rpq_run.specs.Shortage.{has_memory_end};

use crate::fault::TextFault;
use crate::streams::lacks_memory;
use history_model::Why;
use rpq_base::{Entry, Memory, Tuple};
use rpq_io::{Sink, put_all};
use rpq_model::QueryDef;
use rpq_text::{status, status_of_end};
use saved_window::saved;
use std::alloc::Global;
use stream_tuples::StreamEnd;
use tuple_text::write_tuple;

/// Whether the window of a run is saved: unless the engine was shut, or memory ran out for a
/// session, for a stream, or for the replies.
pub fn can_save(
    why: Option<Why>,
    short_of_memory: bool,
    ends: &[StreamEnd],
    replied: Result<(), TextFault>,
) -> bool
    ensures { result ≡ not (is_left_out why short_of_memory ends.now replied) }
{
    !(why.is_some() || short_of_memory || has_memory_end(ends) || lacks_memory(replied))
}

/// Whether some stream ended for want of memory.
fn has_memory_end(ends: &[StreamEnd]) -> bool
    ensures { result ≡ has_memory_end ends.now }
{
    ends.iter().any(|end| status_of_end(end) == status::MEMORY)
}

/// Writes what a later run needs of the history, where there is a sink for it and it's wanted.
pub fn save_window<K: Sink>(
    alloc: Global,
    sink: &mut Option<K>,
    queries: &[QueryDef],
    history: &[Entry],
    wanted: bool,
) -> Result<(), TextFault>
    requires { wanted ≡ true → All IsPlain history.now }
    ensures written { wanted ≡ true → WritesIfThere K.written K.faults
        (saved_text (saved queries.now history.now)) sink.old sink.new result }
    ensures unwanted { wanted ≡ false → (result ≡ Ok tt) × (sink.new ≡ sink.old) }
{
    match sink {
        Some(sink) if wanted => write_window(alloc, sink, queries, history),
        _ => Ok(()),
    }
}

/// Writes what a later run needs of the history.
fn write_window<K: Sink>(
    alloc: Global,
    sink: &mut K,
    queries: &[QueryDef],
    history: &[Entry],
) -> Result<(), TextFault>
    requires { All IsPlain history.now }
    ensures { WritesPart K.written K.faults (saved_text (saved queries.now history.now))
        sink.old sink.new result }
{
    let tuples = saved(alloc, queries, history)?;
    write_tuples(alloc, sink, &tuples)
}

/// Writes the line of each tuple, in order.
fn write_tuples<K: Sink>(alloc: Global, sink: &mut K, tuples: &[Tuple]) -> Result<(), TextFault>
    requires { All IsPlainTuple tuples.now }
    ensures { WritesPart K.written K.faults (saved_text tuples.now) sink.old sink.new result }
{
    for tuple in tuples {
        if let Err(fault) = write_line(alloc, sink, tuple) {
            return Err(fault);
        }
    }
    Ok(())
}

/// Writes the line of a tuple.
fn write_line<K: Sink>(alloc: Global, sink: &mut K, tuple: &Tuple) -> Result<(), TextFault>
    requires { IsPlainTuple tuple.now }
    ensures { WritesPart K.written K.faults (written tuple.now ++ line_feed ∷ [])
        sink.old sink.new result }
{
    let line = line_of_tuple(alloc, tuple)?;
    put_all(sink, &line)?;
    Ok(())
}

/// The written form of a tuple with a line feed.
fn line_of_tuple(alloc: Global, tuple: &Tuple) -> Result<Vec<u8>, Memory>
    requires { IsPlainTuple tuple.now }
    ensures { IfOk result (λ line. line.items ≡ written tuple.now ++ line_feed ∷ []) }
{
    let mut line = write_tuple(alloc, tuple)?;
    line.push(b'\n')?;
    Ok(line)
}
