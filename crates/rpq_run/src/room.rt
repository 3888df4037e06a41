//! Room for what a run leaves, which is taken before it begins.

ghost use Rattle.std.specs.Prelude.{◌≡◌, IfOk, option_to_list};

use live_asks::ReaderEnd;
use std::alloc::{AllocError, Global};

/// Room for one source. It is taken before the first file is opened, so that a failed read can be
/// told with its source, whatever comes.
#[derive(Drop)]
pub struct SourceRoom<S> {
    sources: Vec<S>,
}

impl<S> SourceRoom<S> {
    ghost use Rattle.rpq_run.specs.Room.{IsRoom};

    /// New room. The only error is out of memory.
    pub fn new(alloc: Global) -> Result<SourceRoom<S>, AllocError>
        ensures { IfOk result IsRoom }
    {
        Ok(SourceRoom {
            sources: Vec::with_capacity(alloc, 1)?,
        })
    }

    /// The list of the source, if there is one.
    pub fn of_source(self, source: Option<S>) -> Vec<S>
        requires { IsRoom self }
        ensures { result.items ≡ option_to_list source }
    {
        let mut sources = self.sources;
        if let Some(source) = source {
            sources.push_reserved(source);
        }
        sources
    }
}

/// Room for the sources of the streams, and for how the readers ended. It is taken before the
/// threads of a run begin, so that a run that was made can be told, whatever comes.
#[derive(Drop)]
pub struct EndRoom<S> {
    pub sources: Vec<S>,
    pub ends: Vec<ReaderEnd>,
}

impl<S> EndRoom<S> {
    ghost use Rattle.rpq_run.specs.Room.{IsEndRoom};

    /// New room for so many streams and so many readers. The only error is out of memory.
    pub fn new(alloc: Global, streams: usize, readers: usize) -> Result<EndRoom<S>, AllocError>
        ensures { IfOk result (IsEndRoom streams readers) }
    {
        let ends = Vec::with_capacity(alloc, readers)?;
        Ok(EndRoom {
            sources: Vec::with_capacity(alloc, streams)?,
            ends,
        })
    }
}
