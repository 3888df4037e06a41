//! How much is taken of a file.

/// A file that is read whole has fewer bytes than this.
pub const FILE_LIMIT: u64 = 1 << 24;
