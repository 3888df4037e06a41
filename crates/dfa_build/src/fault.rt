//! Why no automaton is built.

ghost use Rattle.std.specs.Prelude.{◌≡◌, Some};
ghost use Rattle.dfa_build.specs.FaultTexts.{build_fault_text, build_fault_of};
ghost use Rattle.dfa_build.specs.declared.fault.BuildFault.{BuildFault};

use dfa_table::discovery::DiscoveryFault;
use rpq_base::Memory;
use std::alloc::{AllocError, AllocFailed};
use std::error::Error;
use std::fmt;

/// Why no automaton is built for an expression.
#[derive(Clone, Copy, Debug, PartialEq, Eq)]
pub enum BuildFault {
    /// The expression has this number of atoms, which is above 64.
    TooManyLabels(u64),
    /// Words reach more than 512 nonempty sets of positions.
    TooManyStates,
    /// Memory ran out.
    Memory,
}

impl From<Memory> for BuildFault {
    ghost from_gives = { λ _ fault. fault ≡ BuildFault.Memory };

    fn from(_: Memory) -> Self {
        Self::Memory
    }
}

impl From<AllocError> for BuildFault {
    ghost from_gives = { λ _ fault. fault ≡ BuildFault.Memory };

    fn from(_: AllocError) -> Self {
        Self::Memory
    }
}

impl<T: Drop> From<AllocFailed<T>> for BuildFault {
    ghost from_gives = { λ _ fault. fault ≡ BuildFault.Memory };

    fn from(_: AllocFailed<T>) -> Self {
        Self::Memory
    }
}

impl From<DiscoveryFault> for BuildFault {
    ghost from_gives = { λ fault built. built ≡ build_fault_of fault };

    fn from(fault: DiscoveryFault) -> Self {
        match fault {
            DiscoveryFault::Full => Self::TooManyStates,
            DiscoveryFault::Memory(memory) => Self::from(memory),
        }
    }
}

impl fmt::Display for BuildFault {
    ghost output = { λ fault. Some (build_fault_text fault) };

    fn fmt<W: fmt::Write>(&self, f: &mut fmt::Formatter<W>) -> fmt::Result {
        match self {
            Self::TooManyLabels(count) => write!(f, "{count} labels, more than 64"),
            Self::TooManyStates => f.write_str("more than 513 states"),
            Self::Memory => f.write_str("out of memory"),
        }
    }
}

impl Error for BuildFault {}
