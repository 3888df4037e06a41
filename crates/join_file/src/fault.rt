//! Why a joins file isn't taken.

ghost use Rattle.std.specs.Prelude.{◌≡◌, ◌≤◌, Some, length};
ghost use Rattle.join_file.specs.declared.fault.JoinFileFaultKind.{JoinFileFaultKind};
ghost use Rattle.join_file.specs.FaultTexts.{joins_kind_text, joins_fault_text};

use rpq_base::{Memory, Name};
use std::alloc::{AllocError, AllocFailed};
use std::error::Error;
use std::fmt;

/// What is wrong with a line of a joins file.
#[derive(Debug, Drop)]
pub enum JoinFileFaultKind {
    /// The line isn't of the form `join NAME` and one to four atoms `Q X Y`, of which one at least
    /// has a variable.
    Shape,
    /// An earlier join has this name.
    Twice(Name),
    /// As many joins as a file may have stand before.
    TooMany,
    /// No query has the name.
    UnknownQuery,
    /// A vertex, or a variable without its `?`, is no name.
    BadName,
    /// Memory ran out.
    Memory,
}

/// The first line of a joins file that has a fault, counted from 1, and what is wrong with it.
#[derive(Debug, Drop)]
pub struct JoinFileFault {
    pub line: u64,
    pub kind: JoinFileFaultKind,
}

impl JoinFileFaultKind {
    /// What is wrong, as it is told.
    pub fn text(&self) -> &'static str
        ensures text { result.now ≡ joins_kind_text self.now }
        ensures short { length result.now ≤ 100 }
    {
        match self {
            Self::Shape => "shape",
            Self::Twice(_) => "name twice",
            Self::TooMany => "too many",
            Self::UnknownQuery => "unknown query",
            Self::BadName => "bad name",
            Self::Memory => "out of memory",
        }
    }
}

impl From<Memory> for JoinFileFaultKind {
    ghost from_gives = { λ _ kind. kind ≡ JoinFileFaultKind.Memory };

    fn from(_: Memory) -> Self {
        Self::Memory
    }
}

impl From<AllocError> for JoinFileFaultKind {
    ghost from_gives = { λ _ kind. kind ≡ JoinFileFaultKind.Memory };

    fn from(_: AllocError) -> Self {
        Self::Memory
    }
}

impl<T: Drop> From<AllocFailed<T>> for JoinFileFaultKind {
    ghost from_gives = { λ _ kind. kind ≡ JoinFileFaultKind.Memory };

    fn from(_: AllocFailed<T>) -> Self {
        Self::Memory
    }
}

impl fmt::Display for JoinFileFaultKind {
    ghost output = { λ kind. Some (joins_kind_text kind) };

    fn fmt<W: fmt::Write>(&self, f: &mut fmt::Formatter<W>) -> fmt::Result {
        f.write_str(self.text())
    }
}

impl fmt::Display for JoinFileFault {
    ghost output = { λ fault. Some (joins_fault_text fault) };

    fn fmt<W: fmt::Write>(&self, f: &mut fmt::Formatter<W>) -> fmt::Result {
        write!(f, "line {}: {}", self.line, self.kind)
    }
}

impl Error for JoinFileFaultKind {}

impl Error for JoinFileFault {}
