//! How much is taken of a line and of a text.

/// The most bytes of a line before its line feed, its carriage return counted.
pub const LINE_LIMIT: usize = 1024;

/// The greatest number of bytes that a text can be limited to.
pub const MOST_BYTES: u64 = 1 << 62;
