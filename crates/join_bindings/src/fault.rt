//! Why events aren't taken.

ghost use Rattle.std.specs.Prelude.{◌≡◌, Some};
ghost use Rattle.join_bindings.specs.declared.fault.ApplyFault.{ApplyFault};
ghost use Rattle.join_bindings.specs.FaultTexts.{apply_fault_text};

use rpq_base::Memory;
use std::error::Error;
use std::fmt;

/// Why events aren't taken.
#[derive(Clone, Copy, Debug, PartialEq, Eq)]
pub enum ApplyFault {
    /// Memory ran out. The joins are spent then.
    Memory(Memory),
    /// Memory ran out before.
    Spent,
}

impl From<Memory> for ApplyFault {
    ghost from_gives = { λ memory fault. fault ≡ ApplyFault.Memory memory };

    fn from(memory: Memory) -> Self {
        Self::Memory(memory)
    }
}

impl fmt::Display for ApplyFault {
    ghost output = { λ fault. Some (apply_fault_text fault) };

    fn fmt<W: fmt::Write>(&self, f: &mut fmt::Formatter<W>) -> fmt::Result {
        match self {
            Self::Memory(_) => f.write_str("out of memory"),
            Self::Spent => f.write_str("the joins are spent since memory ran out"),
        }
    }
}

impl Error for ApplyFault {}
