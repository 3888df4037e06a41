//! Why words aren't taken.

ghost use Rattle.std.specs.Prelude.{◌≡◌, Some};
ghost use Rattle.rpq_words.specs.declared.fault.WordsFault.{WordsFault};
ghost use Rattle.rpq_words.specs.FaultTexts.{words_fault_text};

use std::alloc::AllocError;
use std::error::Error;
use std::fmt;

/// Why the words of a command line give no settings.
#[derive(Clone, Copy, Debug, PartialEq, Eq)]
pub enum WordsFault {
    /// The words have no settings.
    Refused,
    /// Memory ran out.
    Memory,
}

impl From<AllocError> for WordsFault {
    ghost from_gives = { λ _ fault. fault ≡ WordsFault.Memory };

    fn from(_: AllocError) -> Self {
        Self::Memory
    }
}

impl fmt::Display for WordsFault {
    ghost output = { λ fault. Some (words_fault_text fault) };

    fn fmt<W: fmt::Write>(&self, f: &mut fmt::Formatter<W>) -> fmt::Result {
        match self {
            Self::Refused => f.write_str("words"),
            Self::Memory => f.write_str("out of memory"),
        }
    }
}

impl Error for WordsFault {}
