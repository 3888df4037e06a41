//! Where bytes go.

ghost use Rattle.std.specs.Prelude.{ℕ, List, Option, ◌≡◌, ◌<◌, ◌≤◌, length, take, IfOk, OnErr};
ghost use Rattle.std.specs.Prelude.{IsErr};
ghost use Rattle.std.specs.Io.KnownBytes.{append_known};
ghost use Rattle.rpq_io.specs.Counts.{CountsFault};

use crate::fault::Failed;

/// A sink of bytes.
///
/// Contracts see the bytes `written` on it, where these are told, and its `faults`, the number of
/// the writes that failed.
pub trait Sink {
    ghost written: { Self → Option (List ℕ) };

    ghost faults: { Self → ℕ };

    /// Writes the first bytes of `from`, and answers how many they are: at least 1. A write that
    /// fails writes nothing.
    fn write(&mut self, from: &[u8]) -> Result<usize, Failed>
        requires { 0 < length from.now }
        ensures some { IfOk result (λ count. 1 ≤ count) }
        ensures bound { IfOk result (λ count. count ≤ length from.now) }
        ensures given { IfOk result (λ count.
            written self.new ≡ append_known (written self.old) (take count from.now)) }
        ensures err { OnErr result (written self.new ≡ written self.old) }
        ensures faults { CountsFault (IsErr result) (faults self.old) (faults self.new) };
}
