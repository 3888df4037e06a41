//! The lines of a source.

ghost use Rattle.std.specs.Prelude.{[], ◌≡◌, ◌≢◌, ◌<◌, ◌≤◌, ◌↔◌, length, take, true};
ghost use Rattle.std.specs.Prelude.{false, IsTrue, IfOk, OnErr, IfErr, IsErr, OnOk, IfSome, IfNone};
ghost use Rattle.rpq_io.specs.Counts.{CountsFault};
ghost use Rattle.rpq_io.specs.Held.{reads_left, IsFaultOfHeld, RemovesLine, IsLineOpen};
ghost use Rattle.rpq_io.specs.Held.{PassesPiece};
ghost use Rattle.rpq_io.specs.Outcomes.{AllowsLine};
ghost use Rattle.rpq_io.specs.Reader.{HoldsNoAnswer, Had, GivesLine, IsAtEnd, LosesNothing};
ghost use Rattle.rpq_io.specs.Reader.{ShowsCause, TakesNothing, StaysSound, HasLent};
ghost use Rattle.rpq_io.specs.Reader.{PassesLine, StaysInLine, IsPassFault};
ghost use Rattle.text_parts.specs.Lines.{line_length};

use crate::fault::{Failed, LineFault};
use crate::line_buffer::{LineBuffer, PIECE};
use crate::source::Source;
use rpq_base::Memory;
use std::alloc::Global;
use std::marker::Model;
use text_parts::without_return;

/// Gives the lines of a source, whatever pieces it gives its bytes in.
#[derive(Drop)]
pub struct LineReader<S: Source> {
    alloc: Global,
    source: S,
    buffer: LineBuffer,
    taken_count: u64,
    is_at_end: bool,
    line_count: u64,
    line_limit: usize,
    byte_limit: u64,
}

impl<S: Source> Model for LineReader<S> {
    ghost use Rattle.rpq_io.specs.Reader.{ReaderState};
    ghost use Rattle.rpq_io.specs.Held.{IsInBounds, IsTold};

    ghost Value = { ReaderState S };

    ghost view = { λ reader. record {
      source = reader.source;
      held_bytes = reader.buffer.bytes;
      taken_count = reader.taken_count;
      is_at_end = reader.is_at_end;
      line_count = reader.line_count;
      line_limit = reader.line_limit;
      byte_limit = reader.byte_limit;
    } };

    ghost invariant = { λ reader.
        IsInBounds reader.buffer reader.taken_count reader.line_count
        reader.line_limit reader.byte_limit
        × IsTold reader.is_at_end (S.has_told_end reader.source) (S.left reader.source)
        reader.taken_count reader.byte_limit };
}

impl<S: Source> LineReader<S> {
    ghost use Rattle.std.specs.Borrow.{sem};
    ghost use Rattle.std.specs.Io.BufRead.{Rests};
    ghost use Rattle.rpq_io.specs.contracts.line_reader.LineReader.{the_row};

    /// A reader that has taken nothing. A line may have `line_limit` bytes, a carriage return at
    /// its end too and the line feed not, and `byte_limit` bytes may be taken in all. Its buffer is
    /// taken here. Where memory is refused the source comes back.
    pub fn new(
        alloc: Global,
        source: S,
        line_limit: usize,
        byte_limit: u64,
    ) -> Result<LineReader<S>, (S, Memory)>
        requires untold { S.has_told_end source ≡ false }
        requires line { 1 ≤ line_limit }
        requires short { line_limit ≤ 65536 }
        requires bytes { 1 ≤ byte_limit }
        ensures ok { IfOk result (λ reader. reader ≡ record {
          source = source;
          held_bytes = [];
          taken_count = 0;
          is_at_end = false;
          line_count = 0;
          line_limit = line_limit;
          byte_limit = byte_limit;
        }) }
        ensures err { IfErr result (λ refused. refused.0 ≡ source) }
    {
        match LineBuffer::new(alloc, 2 * line_limit + PIECE) {
            Ok(buffer) => Ok(LineReader {
                alloc,
                source,
                buffer,
                taken_count: 0,
                is_at_end: false,
                line_count: 0,
                line_limit,
                byte_limit,
            }),
            Err(refused) => Err((source, Memory::from(refused))),
        }
    }

    /// The next line, without its line feed and without one carriage return at its end, or `None`
    /// where the source told its end and no byte is left. What stands after the last line feed is a
    /// line where it isn't empty. It reads only where it holds no answer, and a failed read isn't
    /// tried again. After a fault nothing is lost: after `Read` and `Memory` the call may be made
    /// again, and after the others it answers the same again. Each byte is read once, looked at
    /// once, moved once at most, and copied into its line.
    pub fn next_line(&mut self) -> Result<Option<Vec<u8>>, LineFault>
        ensures line { IfOk result (λ answer. IfSome answer (λ line.
            GivesLine S.left self.old self.new line.items)) }
        ensures none { IfOk result (λ answer. IfNone answer (IsAtEnd S.left self.old self.new)) }
        ensures err { OnErr result (LosesNothing S.left self.old self.new) }
        ensures faults { CountsFault (result ≡ Err LineFault.Read)
            (S.faults self.old.source) (S.faults self.new.source) }
        ensures cause { ShowsCause S.left self.old self.new result }
        ensures unread { ¬ HoldsNoAnswer self.old → TakesNothing self.old self.new }
        ensures sound { StaysSound S.left S.has_told_end self.old self.new }
    {
        let has_line = self.find_line()?;
        if !has_line {
            return Ok(None);
        }
        let line = Vec::from_slice(self.alloc, without_return(self.buffer.first_line()))?;
        self.buffer.remove_line();
        self.line_count += 1;
        Ok(Some(line))
    }

    /// The next line as [`next_line`](LineReader::next_line) gives it, but lent until the next call
    /// and not copied, so that no memory is asked for.
    pub fn lend_line(&mut self) -> Result<Option<&[u8]>, LineFault>
        ensures* lent { sem 𝓛 (Rests (the_row S.row S.Source) self.entry
            (HasLent S.left S.has_told_end S.faults self.old result)) }
        ensures short { IfOk result (λ answer. IfSome answer (λ line.
            length line.now ≤ self.old.line_limit)) }
        ensures memory { result ≢ Err LineFault.Memory }
    {
        let has_line = self.find_line()?;
        if !has_line {
            return Ok(None);
        }
        self.buffer.remove_line();
        self.line_count += 1;
        Ok(Some(without_return(self.buffer.removed_line())))
    }

    /// Reads until it holds an answer, and tells whether this is a line.
    fn find_line(&mut self) -> Result<bool, LineFault>
        ensures line { IfOk result (λ has_line. has_line ≡ true → AllowsLine
            self.new.line_limit self.new.is_at_end self.new.held_bytes) }
        ensures none { IfOk result (λ has_line. has_line ≡ false
            → IsAtEnd S.left self.old self.new) }
        ensures kept { LosesNothing S.left self.old self.new }
        ensures faults { CountsFault (result ≡ Err LineFault.Read)
            (S.faults self.old.source) (S.faults self.new.source) }
        ensures cause { ShowsCause S.left self.old self.new result }
        ensures unread { ¬ HoldsNoAnswer self.old → TakesNothing self.old self.new }
        ensures sound { StaysSound S.left S.has_told_end self.old self.new }
        ensures memory { result ≢ Err LineFault.Memory }
    {
        while self.holds_no_answer() {
            self.fill()?;
        }
        self.has_line()
    }

    /// Whether it has to read on before it can answer.
    fn holds_no_answer(&self) -> bool
        ensures { IsTrue result ↔ HoldsNoAnswer self.now }
    {
        let held = self.buffer.len();
        !self.is_at_end
            && self.buffer.line_length() == held
            && held <= self.line_limit
            && self.taken_count < self.byte_limit
    }

    /// Reads once.
    fn fill(&mut self) -> Result<(), Failed>
        requires { HoldsNoAnswer self.old }
        ensures had { Had S.left self.old self.new self.new.held_bytes }
        ensures counted { self.new.line_count ≡ self.old.line_count }
        ensures progress { OnOk result (reads_left self.new < reads_left self.old) }
        ensures wanting { OnErr result (HoldsNoAnswer self.new) }
        ensures faults { CountsFault (IsErr result)
            (S.faults self.old.source) (S.faults self.new.source) }
        ensures sound { StaysSound S.left S.has_told_end self.old self.new }
    {
        self.buffer.make_room();
        let most = self.byte_limit - self.taken_count;
        let count = self.buffer.read_from(&mut self.source, most)?;
        self.is_at_end = count == 0;
        self.taken_count += count as u64;
        Ok(())
    }

    /// Whether the answer that it holds is a line.
    fn has_line(&self) -> Result<bool, LineFault>
        requires { ¬ HoldsNoAnswer self.now }
        ensures line { IfOk result (λ has_line. has_line ≡ true → AllowsLine
            self.now.line_limit self.now.is_at_end self.now.held_bytes) }
        ensures none { IfOk result (λ has_line. has_line ≡ false →
            (self.now.is_at_end ≡ true) × (self.now.held_bytes ≡ [])) }
        ensures cause { IsFaultOfHeld self.now result }
        ensures sound { StaysSound S.left S.has_told_end self.now self.now }
    {
        let held = self.buffer.len();
        let line = self.buffer.line_length();
        if line > self.line_limit {
            Err(LineFault::LongLine)
        } else if line < held {
            Ok(true)
        } else if !self.is_at_end {
            Err(LineFault::LongStream)
        } else if line == 0 {
            Ok(false)
        } else {
            Ok(true)
        }
    }

    /// The first bytes that it holds, as many as a line may have at most.
    pub fn front(&self) -> &[u8]
        ensures { result.now ≡ take self.now.line_limit self.now.held_bytes }
    {
        self.buffer.front(self.buffer.len().min(self.line_limit))
    }

    /// Passes over the next line, which is longer than a line may be, and counts it: up to and with
    /// its line feed, or up to the end of the source. It may have any number of bytes, which are let
    /// go of as they come. After a fault those that came are lost, and what follows of the line
    /// stands as a line of its own.
    pub fn pass_long_line(&mut self) -> Result<(), LineFault>
        requires { self.old.line_limit < line_length self.old.held_bytes }
        ensures ok { OnOk result (PassesLine S.left self.old self.new) }
        ensures err { OnErr result (StaysInLine S.left self.old self.new) }
        ensures faults { CountsFault (result ≡ Err LineFault.Read)
            (S.faults self.old.source) (S.faults self.new.source) }
        ensures cause { IfErr result (λ fault. IsPassFault self.new fault) }
        ensures sound { StaysSound S.left S.has_told_end self.old self.new }
    {
        let _ = &self.buffer;
        while self.is_line_open() {
            self.pass_piece()?;
        }
        self.end_line();
        Ok(())
    }

    /// Whether neither the end of the line that it holds nor the end of the source came yet.
    fn is_line_open(&self) -> bool
        ensures { IsTrue result ↔ IsLineOpen self.now }
    {
        !self.is_at_end && self.buffer.line_length() == self.buffer.len()
    }

    /// Lets go of the bytes that it holds, and reads once.
    fn pass_piece(&mut self) -> Result<(), LineFault>
        requires { IsLineOpen self.old }
        ensures had { PassesPiece S.left self.old self.new }
        ensures progress { OnOk result (reads_left self.new < reads_left self.old) }
        ensures open { OnErr result (IsLineOpen self.new) }
        ensures faults { CountsFault (result ≡ Err LineFault.Read)
            (S.faults self.old.source) (S.faults self.new.source) }
        ensures cause { IfErr result (λ fault. IsPassFault self.new fault) }
        ensures sound { StaysSound S.left S.has_told_end self.old self.new }
    {
        if self.taken_count == self.byte_limit {
            return Err(LineFault::LongStream);
        }
        self.buffer.clear();
        self.fill()?;
        Ok(())
    }

    /// Lets go of what it holds of a line, whose end came, and counts the line.
    fn end_line(&mut self)
        requires came { ¬ IsLineOpen self.old }
        requires room { self.old.line_count < self.old.taken_count }
        ensures line { RemovesLine self.old self.new }
        ensures sound { StaysSound S.left S.has_told_end self.old self.new }
    {
        if self.buffer.len() > 0 {
            self.buffer.remove_line();
        }
        self.line_count += 1;
    }

    /// How many lines were given.
    pub fn lines(&self) -> u64
        ensures { result ≡ self.now.line_count }
    {
        self.line_count
    }

    /// The source, as it stands after the bytes that were taken.
    pub fn into_source(self) -> S
        ensures { result ≡ self.source }
    {
        let LineReader {
            alloc: _,
            source,
            buffer: _,
            taken_count: _,
            is_at_end: _,
            line_count: _,
            line_limit: _,
            byte_limit: _,
        } = self;
        source
    }
}
