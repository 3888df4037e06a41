//! A sink into memory.

ghost use Rattle.std.specs.Prelude.{◌≡◌, ◌<◌, ◌≤◌, ◌||◌, is_err, length, IfOk, IsErr};
ghost use Rattle.rpq_io.specs.Counts.{CountsFault};
ghost use Rattle.rpq_io.specs.Memory.{new_writer, write_count, is_full, after_write};
ghost use Rattle.rpq_io.specs.Script.{next_fails};

use crate::fault::Failed;
use crate::script::Script;
use crate::sink::Sink;
use rpq_base::Memory;
use std::alloc::Global;
use std::marker::Model;

/// A sink into memory, which tells what is written on it. It has room for so many bytes, takes them
/// in pieces, and fails where it is asked to.
#[derive(Drop)]
pub struct MemorySink {
    bytes: Vec<u8>,
    room: usize,
    piece: usize,
    script: Script,
    fault_count: u64,
}

impl Model for MemorySink {
    ghost use Rattle.std.specs.Prelude.{◌≤◌, vec_len, vec_capacity};
    ghost use Rattle.rpq_io.specs.Memory.{MemoryWriter};

    ghost Value = { MemoryWriter };

    ghost view = { λ sink. record {
      written_bytes = sink.bytes.items;
      room = sink.room;
      piece = sink.piece;
      script = sink.script;
      fault_count = sink.fault_count;
    } };

    ghost invariant = { λ sink.
        (vec_len sink.bytes ≤ sink.room)
        × (sink.room ≤ vec_capacity sink.bytes)
        × (1 ≤ sink.piece) };
}

impl MemorySink {
    /// A sink with room for `room` bytes, which is taken here. A write takes `piece` bytes at most;
    /// those with a number in `fails`, counted from 1, fail, and so does one that finds no room
    /// left.
    pub fn new(
        alloc: Global,
        room: usize,
        piece: usize,
        fails: &[u64],
    ) -> Result<MemorySink, Memory>
        requires { 1 ≤ piece }
        ensures { IfOk result (λ sink. sink ≡ new_writer room piece fails.now) }
    {
        Ok(MemorySink {
            bytes: Vec::with_capacity(alloc, room)?,
            room,
            piece,
            script: Script::new(alloc, fails)?,
            fault_count: 0,
        })
    }

    /// The bytes written so far.
    pub fn bytes(&self) -> &[u8]
        ensures { result.now ≡ self.now.written_bytes }
    {
        self.bytes.as_slice()
    }
}

impl Sink for MemorySink {
    ghost use Rattle.std.specs.Prelude.{Some};

    ghost written = { λ sink. Some sink.written_bytes };

    ghost faults = { λ sink. sink.fault_count };

    /// Fails exactly at the listed calls and where no room is left, and else writes as many bytes
    /// as it may.
    fn write(&mut self, from: &[u8]) -> Result<usize, Failed>
        requires { 0 < length from.now }
        ensures some { IfOk result (λ count. 1 ≤ count) }
        ensures listed { is_err result ≡ (next_fails self.old.script || is_full self.old) }
        ensures count { IfOk result (λ count. count ≡ write_count self.old (length from.now)) }
        ensures after { self.new ≡ after_write self.old from.now result }
        ensures faults { CountsFault (IsErr result) self.old.fault_count self.new.fault_count }
    {
        let listed = self.script.next_fails();
        let room = self.room - self.bytes.len();
        if listed || room == 0 {
            self.fault_count = self.fault_count.saturating_add(1);
            return Err(Failed);
        }
        let count = from.len().min(self.piece).min(room);
        match self.bytes.extend_from_slice(&from[..count]) {
            Ok(()) => Ok(count),
            Err(_) => unreachable!(),
        }
    }
}
