//! Sources and sinks over std's readers and writers. They hand on what these give and take, which
//! isn't told.

ghost use Rattle.std.specs.Prelude.{◌≡◌, ◌<◌, ◌≤◌, false, length, IfOk, IsErr};
ghost use Rattle.std.specs.Io.KnownBytes.{ReadConsumes, WriteAppends};
ghost use Rattle.rpq_io.specs.Counts.{CountsFault};
ghost use Rattle.rpq_io.specs.Reads.{tells_end};

use crate::fault::Failed;
use crate::sink::Sink;
use crate::source::Source;
use std::io::{Read, Write};
use std::marker::Model;

/// A source over a reader of std. It counts the reads that fail, up to 2^64 - 1.
#[derive(Drop)]
pub struct HostSource<R> {
    reader: R,
    has_told_end: bool,
    fault_count: u64,
}

impl<R> Model for HostSource<R> {
    ghost use Rattle.rpq_io.specs.Host.{HostReader};

    ghost Value = { HostReader R };

    ghost view = { λ source. record {
      reader = source.reader;
      has_told_end = source.has_told_end;
      fault_count = source.fault_count;
    } };
}

impl<R: Read> HostSource<R> {
    /// A source that reads from here on, with no fault yet.
    pub fn new(reader: R) -> HostSource<R>
        ensures { result ≡ record { reader = reader; has_told_end = false; fault_count = 0 } }
    {
        HostSource {
            reader,
            has_told_end: false,
            fault_count: 0,
        }
    }
}

impl<R: Read> Source for HostSource<R> {
    ghost use Rattle.std.specs.Prelude.{None};

    ghost left = { λ _. None };

    ghost has_told_end = { λ source. source.has_told_end };

    ghost faults = { λ source. source.fault_count };

    /// Hands on what the reader gives, with one read of it.
    fn read(&mut self, into: &mut [u8]) -> Result<usize, Failed>
        requires room { 0 < length into.old }
        requires untold { self.old.has_told_end ≡ false }
        ensures bound { IfOk result (λ count. count ≤ length into.new) }
        ensures bytes { ReadConsumes (R.remaining self.old.reader) (R.remaining self.new.reader)
            result into.new }
        ensures told { self.new.has_told_end ≡ tells_end result }
        ensures faults { CountsFault (IsErr result) self.old.fault_count self.new.fault_count }
    {
        match self.reader.read(into) {
            Ok(count) => {
                self.has_told_end = count == 0;
                Ok(count)
            }
            Err(_) => {
                self.fault_count = self.fault_count.saturating_add(1);
                Err(Failed)
            }
        }
    }
}

/// A sink over a writer of std. It counts the writes that fail, up to 2^64 - 1. A write that takes
/// nothing is one that fails.
#[derive(Drop)]
pub struct HostSink<W> {
    writer: W,
    fault_count: u64,
}

impl<W> Model for HostSink<W> {
    ghost use Rattle.rpq_io.specs.Host.{HostWriter};

    ghost Value = { HostWriter W };

    ghost view = { λ sink. record { writer = sink.writer; fault_count = sink.fault_count } };
}

impl<W: Write> HostSink<W> {
    /// A sink over this writer, with no fault yet.
    pub fn new(writer: W) -> HostSink<W>
        ensures { result ≡ record { writer = writer; fault_count = 0 } }
    {
        HostSink {
            writer,
            fault_count: 0,
        }
    }

    /// The writer, as it stands after the bytes that were written.
    pub fn into_writer(self) -> W
        ensures { result ≡ self.writer }
    {
        let HostSink {
            writer,
            fault_count: _,
        } = self;
        writer
    }
}

impl<W: Write> Sink for HostSink<W> {
    ghost use Rattle.std.specs.Prelude.{None};

    ghost written = { λ _. None };

    ghost faults = { λ sink. sink.fault_count };

    /// Hands the bytes to the writer, in one write of it.
    fn write(&mut self, from: &[u8]) -> Result<usize, Failed>
        requires { 0 < length from.now }
        ensures some { IfOk result (λ count. 1 ≤ count) }
        ensures bound { IfOk result (λ count. count ≤ length from.now) }
        ensures bytes { WriteAppends (W.contents self.old.writer) (W.contents self.new.writer)
            result from.now }
        ensures faults { CountsFault (IsErr result) self.old.fault_count self.new.fault_count }
    {
        match self.writer.write(from) {
            Ok(count) if count > 0 => Ok(count),
            _ => {
                self.fault_count = self.fault_count.saturating_add(1);
                Err(Failed)
            }
        }
    }
}
