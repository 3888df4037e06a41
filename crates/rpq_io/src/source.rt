//! Where bytes come from.

ghost use Rattle.std.specs.Prelude.{ℕ, List, [], Bool, false, Option, ◌≡◌, ◌<◌, ◌≤◌, length, take};
ghost use Rattle.std.specs.Prelude.{IfOk, OnErr, IsErr, IfSome};
ghost use Rattle.std.specs.Io.KnownBytes.{prepend_known};
ghost use Rattle.rpq_io.specs.Counts.{CountsFault};
ghost use Rattle.rpq_io.specs.Reads.{tells_end};

use crate::fault::Failed;

/// A source of bytes.
///
/// Contracts see the bytes that it has `left`, where these are told; whether it `has_told_end`; and
/// its `faults`, the number of the reads that failed.
pub trait Source {
    ghost left: { Self → Option (List ℕ) };

    ghost has_told_end: { Self → Bool };

    ghost faults: { Self → ℕ };

    /// Takes the next bytes into the front of `into`, and answers how many they are: any number up
    /// to the length of `into`. There are 0 only at the end of the bytes, which is told so, and
    /// after which nothing is asked for. A read that fails takes nothing.
    fn read(&mut self, into: &mut [u8]) -> Result<usize, Failed>
        requires room { 0 < length into.old }
        requires untold { has_told_end self.old ≡ false }
        ensures bound { IfOk result (λ count. count ≤ length into.new) }
        ensures taken { IfOk result (λ count.
            left self.old ≡ prepend_known (take count into.new) (left self.new)) }
        ensures end { result ≡ Ok 0 → IfSome (left self.new) (λ rest. rest ≡ []) }
        ensures told { has_told_end self.new ≡ tells_end result }
        ensures err { OnErr result (left self.new ≡ left self.old) }
        ensures faults { CountsFault (IsErr result) (faults self.old) (faults self.new) };
}
