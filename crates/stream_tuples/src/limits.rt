//! How many bytes are taken of a stream.

/// A stream has fewer bytes than this, where the history keeps all its entries.
pub const BYTE_LIMIT: u64 = 1 << 40;

/// A stream has fewer bytes than this, where the history doesn't keep all its entries.
pub const ENDLESS_BYTE_LIMIT: u64 = 1 << 62;
