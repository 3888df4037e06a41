//! What can go wrong at the edge.

ghost use Rattle.std.specs.Prelude.{◌≡◌, Some};
ghost use Rattle.rpq_io.specs.declared.fault.AllFault.{AllFault};
ghost use Rattle.rpq_io.specs.declared.fault.LineFault.{LineFault};
ghost use Rattle.rpq_io.specs.declared.fault.OpenFault.{OpenFault};
ghost use Rattle.rpq_io.specs.FaultTexts.{failed_text, open_fault_text, all_fault_text};
ghost use Rattle.rpq_io.specs.FaultTexts.{line_fault_text};

use rpq_base::Memory;
use std::alloc::AllocError;
use std::error::Error;
use std::fmt;

/// A read or a write failed, and nothing was taken or written by it.
#[derive(Clone, Copy, Debug, PartialEq, Eq)]
pub struct Failed;

impl fmt::Display for Failed {
    ghost output = { λ _. Some failed_text };

    fn fmt<W: fmt::Write>(&self, f: &mut fmt::Formatter<W>) -> fmt::Result {
        f.write_str("a read or a write failed")
    }
}

impl Error for Failed {}

/// Why a file was not opened.
#[derive(Clone, Copy, Debug, PartialEq, Eq)]
pub enum OpenFault {
    /// The opening failed.
    Failed,
    /// Memory ran out.
    Memory,
}

impl From<Failed> for OpenFault {
    ghost from_gives = { λ _ fault. fault ≡ OpenFault.Failed };

    fn from(_: Failed) -> Self {
        Self::Failed
    }
}

impl From<Memory> for OpenFault {
    ghost from_gives = { λ _ fault. fault ≡ OpenFault.Memory };

    fn from(_: Memory) -> Self {
        Self::Memory
    }
}

impl From<AllocError> for OpenFault {
    ghost from_gives = { λ _ fault. fault ≡ OpenFault.Memory };

    fn from(_: AllocError) -> Self {
        Self::Memory
    }
}

impl fmt::Display for OpenFault {
    ghost output = { λ fault. Some (open_fault_text fault) };

    fn fmt<W: fmt::Write>(&self, f: &mut fmt::Formatter<W>) -> fmt::Result {
        match self {
            OpenFault::Failed => f.write_str("a file could not be opened"),
            OpenFault::Memory => f.write_str("out of memory"),
        }
    }
}

impl Error for OpenFault {}

/// Why the bytes of a source were not all read.
#[derive(Clone, Copy, Debug, PartialEq, Eq)]
pub enum AllFault {
    /// A read failed.
    Read,
    /// The source gave as many bytes as the limit, and did not tell its end.
    Long,
    /// Memory ran out.
    Memory,
}

impl From<Failed> for AllFault {
    ghost from_gives = { λ _ fault. fault ≡ AllFault.Read };

    fn from(_: Failed) -> Self {
        Self::Read
    }
}

impl From<AllocError> for AllFault {
    ghost from_gives = { λ _ fault. fault ≡ AllFault.Memory };

    fn from(_: AllocError) -> Self {
        Self::Memory
    }
}

impl fmt::Display for AllFault {
    ghost output = { λ fault. Some (all_fault_text fault) };

    fn fmt<W: fmt::Write>(&self, f: &mut fmt::Formatter<W>) -> fmt::Result {
        match self {
            AllFault::Read => f.write_str("a read failed"),
            AllFault::Long => f.write_str("there are too many bytes"),
            AllFault::Memory => f.write_str("out of memory"),
        }
    }
}

impl Error for AllFault {}

/// Why no line was given.
#[derive(Clone, Copy, Debug, PartialEq, Eq)]
pub enum LineFault {
    /// A read failed.
    Read,
    /// The next line is longer than a line may be.
    LongLine,
    /// As many bytes were taken as may be, and neither a line nor the end came.
    LongStream,
    /// Memory ran out.
    Memory,
}

impl From<Failed> for LineFault {
    ghost from_gives = { λ _ fault. fault ≡ LineFault.Read };

    fn from(_: Failed) -> Self {
        Self::Read
    }
}

impl From<AllocError> for LineFault {
    ghost from_gives = { λ _ fault. fault ≡ LineFault.Memory };

    fn from(_: AllocError) -> Self {
        Self::Memory
    }
}

impl fmt::Display for LineFault {
    ghost output = { λ fault. Some (line_fault_text fault) };

    fn fmt<W: fmt::Write>(&self, f: &mut fmt::Formatter<W>) -> fmt::Result {
        match self {
            LineFault::Read => f.write_str("a read failed"),
            LineFault::LongLine => f.write_str("a line is too long"),
            LineFault::LongStream => f.write_str("there are too many bytes"),
            LineFault::Memory => f.write_str("out of memory"),
        }
    }
}

impl Error for LineFault {}
