//! A source over bytes in memory.

ghost use Rattle.std.specs.Prelude.{◌≡◌, ◌<◌, ◌≤◌, [], false, is_err, take, length, IfOk, IsErr};
ghost use Rattle.rpq_io.specs.Counts.{CountsFault};
ghost use Rattle.rpq_io.specs.Memory.{new_reader, read_count, after_read};
ghost use Rattle.rpq_io.specs.Script.{next_fails};

use crate::fault::Failed;
use crate::script::Script;
use crate::source::Source;
use rpq_base::Memory;
use std::alloc::Global;
use std::marker::Model;

/// A source over bytes in memory, which it tells. It gives them in pieces, and fails where it is
/// asked to.
#[derive(Drop)]
pub struct MemorySource {
    bytes: Vec<u8>,
    taken_count: usize,
    has_told_end: bool,
    piece: usize,
    script: Script,
    fault_count: u64,
}

impl Model for MemorySource {
    ghost use Rattle.std.specs.Prelude.{◌≤◌, drop, vec_len};
    ghost use Rattle.rpq_io.specs.Memory.{MemoryReader};

    ghost Value = { MemoryReader };

    ghost view = { λ source. record {
      left_bytes = drop source.taken_count source.bytes.items;
      has_told_end = source.has_told_end;
      piece = source.piece;
      script = source.script;
      fault_count = source.fault_count;
    } };

    ghost invariant = { λ source.
        (source.taken_count ≤ vec_len source.bytes) × (1 ≤ source.piece) };
}

impl MemorySource {
    /// A source of these bytes, which are copied. A read takes `piece` bytes at most; those with a
    /// number in `fails`, counted from 1, fail.
    pub fn new(
        alloc: Global,
        bytes: &[u8],
        piece: usize,
        fails: &[u64],
    ) -> Result<MemorySource, Memory>
        requires { 1 ≤ piece }
        ensures { IfOk result (λ source. source ≡ new_reader bytes.now piece fails.now) }
    {
        Ok(MemorySource {
            bytes: Vec::from_slice(alloc, bytes)?,
            taken_count: 0,
            has_told_end: false,
            piece,
            script: Script::new(alloc, fails)?,
            fault_count: 0,
        })
    }
}

impl Source for MemorySource {
    ghost use Rattle.std.specs.Prelude.{Some};

    ghost left = { λ source. Some source.left_bytes };

    ghost has_told_end = { λ source. source.has_told_end };

    ghost faults = { λ source. source.fault_count };

    /// Fails exactly at the listed calls, and else takes as many bytes as it may.
    fn read(&mut self, into: &mut [u8]) -> Result<usize, Failed>
        requires room { 0 < length into.old }
        requires untold { self.old.has_told_end ≡ false }
        ensures listed { is_err result ≡ next_fails self.old.script }
        ensures count { IfOk result (λ count. count ≡ read_count self.old (length into.old)) }
        ensures bytes { IfOk result (λ count.
            take count into.new ≡ take count self.old.left_bytes) }
        ensures end { result ≡ Ok 0 → self.new.left_bytes ≡ [] }
        ensures after { self.new ≡ after_read self.old result }
        ensures faults { CountsFault (IsErr result) self.old.fault_count self.new.fault_count }
    {
        if self.script.next_fails() {
            self.fault_count = self.fault_count.saturating_add(1);
            return Err(Failed);
        }
        let rest = &self.bytes.as_slice()[self.taken_count..];
        let count = rest.len().min(self.piece).min(into.len());
        into[..count].copy_from_slice(&rest[..count]);
        self.taken_count += count;
        self.has_told_end = count == 0;
        Ok(count)
    }
}
