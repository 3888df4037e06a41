//! How a stream can end.

use history_model::Why;
use tuple_text::BadLine;

/// How a stream ended. Lines are numbered from 1, and blank lines and comments count.
#[derive(Clone, Copy, Debug, PartialEq, Eq)]
pub enum StreamEnd {
    /// It was read to its end.
    Whole,
    /// This line has this fault.
    Line { line: u64, fault: BadLine },
    /// This line is too long.
    LongLine { line: u64 },
    /// It has too many bytes.
    LongStream,
    /// A read of it failed.
    Read,
    /// A write of its faults failed.
    Faults,
    /// The history was full when a further tuple was read.
    Full,
    /// No tuple was taken any more when a further one was read.
    Closed(Why),
    /// Memory ran out.
    Memory,
}
