//! Why an entry isn't answered.

ghost use Rattle.std.specs.Prelude.{◌≡◌, Some};
ghost use Rattle.path_engine.specs.declared.fault.FeedFault.{FeedFault};
ghost use Rattle.path_engine.specs.FaultTexts.{feed_fault_text};

use rpq_base::Memory;
use std::error::Error;
use std::fmt;

/// Why an entry isn't answered.
#[derive(Clone, Copy, Debug, PartialEq, Eq)]
pub enum FeedFault {
    /// Memory ran out, and the engine is spent.
    Memory(Memory),
    /// The engine was spent before, and wasn't rebuilt since.
    Spent,
}

impl From<Memory> for FeedFault {
    ghost from_gives = { λ memory fault. fault ≡ FeedFault.Memory memory };

    fn from(memory: Memory) -> Self {
        Self::Memory(memory)
    }
}

impl fmt::Display for FeedFault {
    ghost output = { λ fault. Some (feed_fault_text fault) };

    fn fmt<W: fmt::Write>(&self, f: &mut fmt::Formatter<W>) -> fmt::Result {
        match self {
            Self::Memory(_) => f.write_str("out of memory"),
            Self::Spent => f.write_str("the engine is spent since memory ran out"),
        }
    }
}

impl Error for FeedFault {}
