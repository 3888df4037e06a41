//! The streams of a run, as their workers are given them.

ghost use Rattle.std.specs.Prelude.{◌≡◌, ◌⊎◌, [], length, map, IfOk};
ghost use Rattle.stream_threads.specs.Inputs.{sinks_for};

use rpq_base::Memory;
use rpq_io::{LineReader, Source};
use std::alloc::Global;

/// What the worker of a stream is given: the lines of the stream, and a sink for its faulty lines.
/// Without one, a faulty line ends the stream.
#[derive(Drop)]
pub struct StreamInput<S: Source, K> {
    pub reader: LineReader<S>,
    pub faults: Option<K>,
}

/// The inputs of the streams with these lines. There is a sink for the faulty lines of each, in the
/// order of the streams, or there is none. The only error is [`Memory`].
pub fn stream_inputs<S: Source + Drop, K: Drop>(
    alloc: Global,
    readers: Vec<LineReader<S>>,
    faults: Vec<K>,
) -> Result<Vec<StreamInput<S, K>>, Memory>
    requires many { (faults.items ≡ []) ⊎ (length faults.items ≡ length readers.items) }
    ensures readers { IfOk result (λ inputs.
        map (λ one. one.reader) inputs.items ≡ readers.items) }
    ensures faults { IfOk result (λ inputs.
        map (λ one. one.faults) inputs.items ≡ sinks_for (length readers.items) faults.items) }
{
    let mut inputs = Vec::with_capacity(alloc, readers.len())?;
    let mut sinks = faults.into_iter();
    for reader in readers {
        let faults = sinks.next();
        inputs.push_reserved(StreamInput { reader, faults });
    }
    Ok(inputs)
}
