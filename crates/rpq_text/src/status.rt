//! The statuses with which a run ends.

/// All was done: the streams were read to their ends, or the queries were checked.
pub const DONE: u8 = 0;

/// The words of the command line have no settings.
pub const WORDS: u8 = 1;

/// The queries file has a fault.
pub const QUERIES: u8 = 2;

/// The asks file has a fault.
pub const ASKS: u8 = 3;

/// A line of a stream is faulty or too long.
pub const LINE: u8 = 4;

/// A file couldn't be opened to be read, or a read of it failed.
pub const READ: u8 = 5;

/// A write of the events, of the replies, of the saved window or of the faulty lines of a stream
/// failed, or the file of the replies, of a reader's replies, of the saved window or of such lines
/// couldn't be opened.
pub const WRITE: u8 = 6;

/// The history is full, or a file has too many bytes.
pub const LIMIT: u8 = 7;

/// Memory ran out.
pub const MEMORY: u8 = 8;

/// The asks of a reader couldn't be read to their end, or its replies not be written.
pub const READER: u8 = 9;

/// The joins file has a fault.
pub const JOINS: u8 = 10;
