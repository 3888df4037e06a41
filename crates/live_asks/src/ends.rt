//! How a reader can end.

ghost use Rattle.std.specs.Prelude.{◌≡◌};
ghost use Rattle.live_asks.specs.declared.ends.ReaderEnd.{ReaderEnd as End};

use history_model::Why;
use rpq_base::Memory;

/// How a reader ended. Lines are numbered from 1, and blank lines and comments count.
#[derive(Clone, Copy, Debug, PartialEq, Eq)]
pub enum ReaderEnd {
    /// Its asks were read to their end.
    Whole,
    /// This line says that it ends.
    Left { line: u64 },
    /// Its asks have too many bytes.
    LongText,
    /// A read of its asks failed.
    Read,
    /// A write of its replies failed.
    Write,
    /// The history was shut when a further line asked for something.
    Closed(Why),
    /// Memory ran out.
    Memory,
}

impl From<Memory> for ReaderEnd {
    ghost from_gives = { λ _ end. end ≡ End.Memory };

    fn from(_: Memory) -> Self {
        Self::Memory
    }
}
