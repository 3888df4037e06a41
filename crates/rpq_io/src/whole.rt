//! All the bytes of a source, and all bytes to a sink.

ghost use Rattle.std.specs.Prelude.{false, ◌≡◌, is_ok, IfOk, OnOk, OnErr, IsErr};
ghost use Rattle.std.specs.Io.KnownBytes.{append_known};
ghost use Rattle.rpq_io.specs.Counts.{CountsFault};
ghost use Rattle.rpq_io.specs.Takes.{TakesAll, TakesAtMost, IsTooMuch};
ghost use Rattle.rpq_io.specs.Writes.{WritesProperPrefix};

use crate::fault::{AllFault, Failed};
use crate::sink::Sink;
use crate::source::Source;
use std::alloc::Global;

/// The most bytes that [`read_all`] asks a source for at once.
const PIECE: u64 = 4096;

/// All the bytes that the source has left, in their order, which are to be fewer than `byte_limit`.
/// It never takes more than `byte_limit` bytes, and a source that gives few at a time isn't taken
/// to be at its end. The source told its end exactly where the answer is `Ok`. After a fault it is
/// past what was taken, which is lost. A failed read isn't tried again.
pub fn read_all<S: Source>(
    alloc: Global,
    source: &mut S,
    byte_limit: u64,
) -> Result<Vec<u8>, AllFault>
    requires { S.has_told_end source.old ≡ false }
    ensures ok { IfOk result (λ bytes.
        TakesAll byte_limit (S.left source.old) (S.left source.new) bytes.items) }
    ensures told { S.has_told_end source.new ≡ is_ok result }

    ensures long { result ≡ Err AllFault.Long
        → IsTooMuch byte_limit (S.left source.old) (S.left source.new) }
    ensures err { OnErr result (TakesAtMost byte_limit (S.left source.old) (S.left source.new)) }
    ensures faults { CountsFault (result ≡ Err AllFault.Read)
        (S.faults source.old) (S.faults source.new) }
{
    let mut bytes = Vec::new(alloc);
    let mut buffer = [0; PIECE as usize];
    while (bytes.len() as u64) < byte_limit {
        let room = PIECE.min(byte_limit - bytes.len() as u64) as usize;
        let count = source.read(&mut buffer[..room])?;
        if count == 0 {
            return Ok(bytes);
        }
        bytes.extend_from_slice(&buffer[..count])?;
    }
    Err(AllFault::Long)
}

/// Writes all the bytes, in their order, or a proper prefix of them, where a write then failed. A
/// failed write isn't tried again. Takes no memory.
pub fn put_all<S: Sink>(sink: &mut S, bytes: &[u8]) -> Result<(), Failed>
    ensures ok { OnOk result (S.written sink.new ≡ append_known (S.written sink.old) bytes.now) }
    ensures err { OnErr result
        (WritesProperPrefix bytes.now (S.written sink.old) (S.written sink.new)) }
    ensures faults { CountsFault (IsErr result) (S.faults sink.old) (S.faults sink.new) }
{
    let mut done = 0;
    while done < bytes.len() {
        done += sink.write(&bytes[done..])?;
    }
    Ok(())
}
