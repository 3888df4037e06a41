//! What a line of a reader asks.

use ask_text::{Ask, AskFault};

/// What a line of a reader asks that is neither blank nor a comment, and doesn't end the reader.
#[derive(Debug, PartialEq, Eq, Drop)]
pub enum ReaderItem {
    /// The line is an ask.
    Asked(Ask),
    /// The line has this fault.
    Faulty(AskFault),
    /// The line with this number is too long.
    Long { line: u64 },
}
