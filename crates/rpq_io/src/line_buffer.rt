//! Bytes that were taken from a source and not yet given.

ghost use Rattle.std.specs.Prelude.{[], ◌≡◌, ◌+◌, ◌<◌, ◌≤◌, length, take, drop, slice_range, false};
ghost use Rattle.std.specs.Prelude.{IfOk, OnErr};
ghost use Rattle.std.specs.Io.KnownBytes.{prepend_known};
ghost use Rattle.rpq_io.specs.Held.{HeldBytes, Grows, IsRead};
ghost use Rattle.text_parts.specs.Lines.{line_length};

use crate::fault::Failed;
use crate::source::Source;
use std::alloc::{AllocError, Global};
use std::marker::Model;
use text_parts::line_length;

/// Where fewer bytes than this could be read behind those held, these are moved to the front. A
/// buffer of this size and twice that of what is held at most moves no byte more often than it
/// reads one.
pub const PIECE: usize = 4096;

/// Bytes in their order, some of them given and the others held, of which it knows the length of
/// the first line. Contracts see the bytes held, how many more can be read behind them, how many it
/// can hold at most, and the line that was removed last.
#[derive(Drop)]
pub struct LineBuffer {
    bytes: Vec<u8>,
    start: usize,
    end: usize,
    line_length: usize,
    removed_start: usize,
    removed_end: usize,
}

impl Model for LineBuffer {
    ghost use Rattle.std.specs.Prelude.{◌-◌, length, slice_range};
    ghost use Rattle.rpq_io.specs.Held.{HeldBytes, IsLaidOut};

    ghost Value = { HeldBytes };

    ghost view = { λ buffer. record {
      bytes = slice_range buffer.bytes.items buffer.start buffer.end;
      room = length buffer.bytes.items - buffer.end;
      size = length buffer.bytes.items;
      removed = slice_range buffer.bytes.items buffer.removed_start buffer.removed_end;
    } };

    ghost invariant = { λ buffer.
        IsLaidOut buffer.bytes.items buffer.start buffer.end buffer.line_length
        buffer.removed_start buffer.removed_end };
}

impl LineBuffer {
    /// Holds nothing, and can hold `size` bytes.
    pub fn new(alloc: Global, size: usize) -> Result<LineBuffer, AllocError>
        ensures none { IfOk result (λ buffer. buffer.bytes ≡ []) }
        ensures size { IfOk result (λ buffer. buffer.size ≡ size) }
    {
        Ok(LineBuffer {
            bytes: vec![in alloc; 0; size]?,
            start: 0,
            end: 0,
            line_length: 0,
            removed_start: 0,
            removed_end: 0,
        })
    }

    /// How many bytes are held.
    pub fn len(&self) -> usize
        ensures { result ≡ length self.now.bytes }
    {
        self.end - self.start
    }

    /// The length of the first line of the bytes held.
    pub fn line_length(&self) -> usize
        ensures line { result ≡ line_length self.now.bytes }
        ensures within { result ≤ length self.now.bytes }
    {
        self.line_length
    }

    /// The first line of the bytes held.
    pub fn first_line(&self) -> &[u8]
        ensures { result.now ≡ take (line_length self.now.bytes) self.now.bytes }
    {
        self.front(self.line_length())
    }

    /// The first `count` bytes held.
    pub fn front(&self, count: usize) -> &[u8]
        requires { count ≤ length self.now.bytes }
        ensures { result.now ≡ take count self.now.bytes }
    {
        &self.bytes.as_slice()[self.start..self.start + count]
    }

    /// Lets go of the first line of the bytes held, and of its line feed if it has one. The line
    /// stays where it is until bytes are moved or read. Each byte is looked at once until the next
    /// line feed is found.
    pub fn remove_line(&mut self)
        requires { 0 < length self.old.bytes }
        ensures line { self.new.removed ≡ take (line_length self.old.bytes) self.old.bytes }
        ensures bytes { self.new.bytes ≡ drop (line_length self.old.bytes + 1) self.old.bytes }
        ensures fewer { length self.new.bytes < length self.old.bytes }
        ensures size { self.new.size ≡ self.old.size }
    {
        let line = self.line_length();
        let line_end = self.start + line;
        self.removed_start = self.start;
        self.removed_end = line_end;
        self.start = self.end.min(line_end + 1);
        self.line_length = line_length_from(&self.bytes.as_slice()[self.start..self.end], 0);
    }

    /// Lets go of all bytes held.
    pub fn clear(&mut self)
        ensures bytes { self.new.bytes ≡ [] }
        ensures size { self.new.size ≡ self.old.size }
    {
        self.start = self.end;
        self.line_length = 0;
    }

    /// The line that was removed last.
    pub fn removed_line(&self) -> &[u8]
        ensures { result.now ≡ self.now.removed }
    {
        &self.bytes.as_slice()[self.removed_start..self.removed_end]
    }

    /// Moves the bytes held to the front where fewer than [`PIECE`] could be read behind them.
    pub fn make_room(&mut self)
        requires { length self.old.bytes < self.old.size }
        ensures room { 0 < self.new.room }
        ensures bytes { self.new.bytes ≡ self.old.bytes }
        ensures size { self.new.size ≡ self.old.size }
    {
        if self.bytes.len() - self.end < PIECE {
            self.bytes
                .as_mut_slice()
                .copy_within(self.start..self.end, 0);
            self.end -= self.start;
            self.start = 0;
        }
    }

    /// Reads the next bytes of the source, at most `most`, behind those held.
    pub fn read_from<S: Source>(&mut self, source: &mut S, most: u64) -> Result<usize, Failed>
        requires room { 0 < self.old.room }
        requires some { 0 < most }
        requires untold { S.has_told_end source.old ≡ false }
        ensures grown { IfOk result (λ count.
            Grows count self.old.bytes self.new.bytes (S.left source.old) (S.left source.new)) }
        ensures few { IfOk result (λ count. count ≤ most) }
        ensures kept { OnErr result (self.new.bytes ≡ self.old.bytes) }
        ensures size { self.new.size ≡ self.old.size }
        ensures read { IsRead S.left S.has_told_end S.faults source.old source.new result }
    {
        let count = read_behind(source, self.bytes.as_mut_slice(), self.end, most)?;
        self.end += count;
        self.line_length = line_length_from(
            &self.bytes.as_slice()[self.start..self.end],
            self.line_length,
        );
        Ok(count)
    }
}

/// Reads the next bytes of the source, at most `most`, to the place `end` and those after it.
fn read_behind<S: Source>(
    source: &mut S,
    bytes: &mut [u8],
    end: usize,
    most: u64,
) -> Result<usize, Failed>
    requires room { end < length bytes.old }
    requires some { 0 < most }
    requires untold { S.has_told_end source.old ≡ false }
    ensures taken { IfOk result (λ count. S.left source.old
        ≡ prepend_known (slice_range bytes.new end (end + count)) (S.left source.new)) }
    ensures within { IfOk result (λ count. end + count ≤ length bytes.new) }
    ensures few { IfOk result (λ count. count ≤ most) }
    ensures before { take end bytes.new ≡ take end bytes.old }
    ensures read { IsRead S.left S.has_told_end S.faults source.old source.new result }
{
    let room = (bytes.len() - end) as u64;
    let wanted = room.min(most) as usize;
    source.read(&mut bytes[end..end + wanted])
}

/// The length of the first line of the bytes, of which the first `from` are known to hold no line
/// feed.
fn line_length_from(bytes: &[u8], from: usize) -> usize
    requires { from ≤ line_length bytes.now }
    ensures { result ≡ line_length bytes.now }
{
    from + line_length(&bytes[from..])
}
