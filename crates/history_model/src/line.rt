//! The lines of a history.

use rpq_base::Tuple;

/// Why a history was shut before all its streams ended.
#[derive(Clone, Copy, Debug, PartialEq, Eq)]
pub enum Why {
    /// What was written was refused.
    Write,
    /// Memory ran out.
    Memory,
}

/// What a call did to a history.
#[derive(Clone, Copy, Debug, PartialEq, Eq)]
pub enum CallAct {
    /// A stream appended a tuple.
    Append,
    /// A stream ended.
    EndStream,
    /// The engine published the answers over so many entries.
    Publish(u64),
    /// The engine shut the history.
    Shut(Why),
}

/// A call that changed a history, with the number of its caller: 0 is the engine, and the streams
/// are numbered from 1.
#[derive(Clone, Copy, Debug, PartialEq, Eq)]
pub struct Call {
    pub by: u32,
    pub act: CallAct,
}

/// A line of a history: a call, and for an append its tuple.
///
/// No code makes one: contracts speak of a history as the list of its lines.
#[derive(Debug, PartialEq, Eq, Drop)]
pub struct Line {
    pub call: Call,
    pub tuple: Option<Tuple>,
}
