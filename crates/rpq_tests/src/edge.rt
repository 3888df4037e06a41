//! Sources, sinks and files that fail, in memory and of the host.

ghost use Rattle.std.specs.Prelude.{◌≡◌, ◌≤◌, false};

use crate::memory::{has_written, sink_of};
use rpq_io::{
    AllFault, Files, HostFiles, HostSink, HostSource, LineFault, LineReader, MemoryFiles,
    MemorySink, MemorySource, Place, Sink, Source, put_all, read_all,
};
use std::alloc::Global;
use std::io;
use std::io::{ErrorKind, Read};
use std::process::Abort;

/// Whether a read of the source fails, and then all that is left are these bytes.
fn fails_and_then_gives<S: Source>(alloc: Global, source: &mut S, rest: &[u8]) -> bool
    requires { S.has_told_end source.old ≡ false }
{
    match read_all(alloc, source, 9) {
        Err(AllFault::Read) => match read_all(alloc, source, 9) {
            Ok(bytes) => bytes.as_slice() == rest,
            Err(_) => false,
        },
        _ => false,
    }
}

/// Whether these are all the bytes of the source.
fn has_bytes<S: Source>(alloc: Global, source: &mut S, expected: &[u8]) -> bool
    requires { S.has_told_end source.old ≡ false }
{
    match read_all(alloc, source, 100) {
        Ok(bytes) => bytes.as_slice() == expected,
        Err(_) => false,
    }
}

/// Whether the sink takes all the bytes.
fn takes<S: Sink>(sink: &mut S, bytes: &[u8]) -> bool {
    put_all(sink, bytes).is_ok()
}

#[test]
fn a_read_that_fails_loses_nothing(rt: HostRuntime) {
    let mut source = MemorySource::new(rt.alloc(), b"abcd", 2, &[2]).expect(&rt, "memory");
    assert!(rt; fails_and_then_gives(rt.alloc(), &mut source, b"cd"));
}

#[test]
fn a_write_that_fails_keeps_what_went_out(rt: HostRuntime) {
    let mut failing = sink_of(&rt, rt.alloc(), 9, 2, &[2]);
    assert!(rt; !takes(&mut failing, b"abcde"));
    assert!(rt; takes(&mut failing, b"xyz"));
    assert!(rt; has_written(&failing, "abxyz"));
    let mut full = sink_of(&rt, rt.alloc(), 3, 2, &[]);
    assert!(rt; !takes(&mut full, b"abcde"));
    assert!(rt; has_written(&full, "abc"));
}

/// Whether a file in memory is read as it was added: the second read fails.
fn opens_a_file(alloc: Global, files: &mut MemoryFiles) -> bool {
    match files.source("a") {
        Ok(source) => {
            let mut source = source;
            fails_and_then_gives(alloc, &mut source, b"rst")
        }
        Err(_) => false,
    }
}

/// Whether this file can't be opened to read.
fn has_no_source<F: Files>(files: &mut F, name: &str) -> bool {
    files.source(name).is_err()
}

/// Whether this file is opened to write, its first write fails, and it then has no room for the
/// last byte.
fn writes_with_faults(files: &mut MemoryFiles, name: &str) -> bool {
    match files.sink(name) {
        Ok(sink) => {
            let mut sink = sink;
            !takes(&mut sink, b"xyz") && !takes(&mut sink, b"xyz") && has_written(&sink, "xy")
        }
        Err(_) => false,
    }
}

/// Files in memory of which one can be read, where the third opening fails.
fn files_of_one(rt: &impl Abort, alloc: Global) -> MemoryFiles {
    let mut files = MemoryFiles::new(alloc, 2, 1, &[1], &[3]).expect(rt, "memory");
    files.add("a", b"first", 2, &[2]).expect(rt, "memory");
    files
}

#[test]
fn files_in_memory_are_opened(rt: HostRuntime) {
    let mut files = files_of_one(&rt, rt.alloc());
    assert!(rt; has_no_source(&mut files, "b"), "not there");
    assert!(rt; opens_a_file(rt.alloc(), &mut files));
    assert!(rt; has_no_source(&mut files, "a"), "the third opening");
    assert!(rt; writes_with_faults(&mut files, "c"));
}

/// Whether a new run reads this file of the host, and doesn't open it to write afterwards.
fn reads_a_file(rt: &HostRuntime, name: &str, expected: &[u8]) -> bool {
    let mut files = HostFiles::new(rt.alloc(), rt);
    match files.source(name) {
        Ok(source) => {
            let mut source = source;
            has_bytes(rt.alloc(), &mut source, expected) && files.sink(name).is_err()
        }
        Err(_) => false,
    }
}

/// Whether a new run opens this file of the host to write, and not once more, and writes these
/// bytes, so that another run reads them at once; and has no other file to read.
fn writes_a_file(rt: &HostRuntime, name: &str, bytes: &[u8]) -> bool {
    let mut files = HostFiles::new(rt.alloc(), rt);
    match files.sink(name) {
        Ok(sink) => {
            let mut sink = sink;
            takes(&mut sink, bytes)
                && files.sink(name).is_err()
                && has_no_source(&mut files, "rpq_no_such_file")
                && reads_a_file(rt, name, bytes)
        }
        Err(_) => false,
    }
}

#[test]
fn files_of_the_host_are_written_and_read(rt: HostRuntime) {
    let name = "rpq_written_by_a_test";
    assert!(rt; writes_a_file(&rt, name, b"one line\n"));
    assert!(rt;
        reads_a_file(&rt, name, b"one line\n"),
        "not written anew by reading"
    );
}

/// Gives an `a`, then fails, then is at its end. The first write fails, and each later one takes
/// all bytes.
#[derive(Drop)]
struct FlakyHost {
    calls: u8,
}

impl Read for FlakyHost {
    fn read(&mut self, buf: &mut [u8]) -> io::Result<usize> {
        self.calls = self.calls.saturating_add(1);
        match buf.first_mut() {
            Some(first) if self.calls == 1 => {
                *first = b'a';
                Ok(1)
            }
            _ if self.calls == 2 => Err(io::Error::from(ErrorKind::Other)),
            _ => Ok(0),
        }
    }
}

impl io::Write for FlakyHost {
    fn write(&mut self, buf: &[u8]) -> io::Result<usize> {
        self.calls = self.calls.saturating_add(1);
        match self.calls {
            1 => Err(io::Error::from(ErrorKind::Other)),
            _ => Ok(buf.len()),
        }
    }

    fn flush(&mut self) -> io::Result<()> {
        Ok(())
    }
}

/// Takes no bytes.
#[derive(Drop)]
struct FullHost;

impl io::Write for FullHost {
    fn write(&mut self, _buf: &[u8]) -> io::Result<usize> {
        Ok(0)
    }

    fn flush(&mut self) -> io::Result<()> {
        Ok(())
    }
}

#[test]
fn faults_of_the_host_are_answered(rt: HostRuntime) {
    let mut source = HostSource::new(FlakyHost { calls: 0 });
    assert!(rt; fails_and_then_gives(rt.alloc(), &mut source, b""));
    assert!(rt;
        !takes(&mut HostSink::new(FlakyHost { calls: 0 }), b"abc"),
        "a failed write isn't made again"
    );
    assert!(rt; !takes(&mut HostSink::new(FullHost), b"abc"));
}

/// Takes one byte in a write.
#[derive(Drop)]
struct SparingHost {
    bytes: Vec<u8>,
}

impl io::Write for SparingHost {
    fn write(&mut self, buf: &[u8]) -> io::Result<usize> {
        match buf.first() {
            Some(byte) => {
                self.bytes.push(*byte)?;
                Ok(1)
            }
            None => Ok(0),
        }
    }

    fn flush(&mut self) -> io::Result<()> {
        Ok(())
    }
}

#[test]
fn a_writer_that_takes_less_gets_all_bytes(rt: HostRuntime) {
    let mut sink = HostSink::new(SparingHost {
        bytes: Vec::new(rt.alloc()),
    });
    assert!(rt; takes(&mut sink, b"abc"));
    let writer = sink.into_writer();
    assert!(rt; writer.bytes.as_slice() == b"abc".as_slice());
}

#[test]
fn standard_output_and_error_are_sinks(rt: HostRuntime) {
    let output: Place<FlakyHost> = Place::Output(rt.stdout());
    assert!(rt; takes(&mut HostSink::new(output), b"to standard output\n"));
    let errors: Place<FlakyHost> = Place::Errors(rt.stderr());
    assert!(rt; takes(&mut HostSink::new(errors), b"to standard error\n"));
}

/// A reader of lines of at most 8 bytes over bytes in memory, which come in pieces of 3; the reads
/// with these numbers fail.
fn reader_over(
    rt: &impl Abort,
    alloc: Global,
    bytes: &[u8],
    fails: &[u64],
    byte_limit: u64,
) -> LineReader<MemorySource>
    requires { 1 ≤ byte_limit }
{
    let source = MemorySource::new(alloc, bytes, 3, fails).expect(rt, "memory");
    match LineReader::new(alloc, source, 8, byte_limit) {
        Ok(reader) => reader,
        Err(_) => panic!(rt; "memory"),
    }
}

/// Whether the next line is this one.
fn gives<S: Source>(reader: &mut LineReader<S>, line: &[u8]) -> bool {
    match reader.next_line() {
        Ok(Some(given)) => given.as_slice() == line,
        _ => false,
    }
}

/// Whether there is no further line.
fn is_at_end<S: Source>(reader: &mut LineReader<S>) -> bool {
    matches!(reader.next_line(), Ok(None))
}

/// Whether no line comes, for this fault.
fn fails_by<S: Source>(reader: &mut LineReader<S>, fault: LineFault) -> bool {
    match reader.next_line() {
        Err(found) => found == fault,
        Ok(_) => false,
    }
}

/// Whether the limit is reached, and these bytes are left in the source.
fn leaves(alloc: Global, reader: LineReader<MemorySource>, rest: &[u8]) -> bool {
    let mut reader = reader;
    match reader.next_line() {
        Err(LineFault::LongStream) => {
            let mut source = reader.into_source();
            has_bytes(alloc, &mut source, rest)
        }
        _ => false,
    }
}

#[test]
fn a_failed_read_loses_no_line(rt: HostRuntime) {
    let mut reader = reader_over(&rt, rt.alloc(), b"abcd\nef", &[2, 4], 100);
    assert!(rt; fails_by(&mut reader, LineFault::Read));
    assert!(rt; gives(&mut reader, b"abcd"));
    assert!(rt; fails_by(&mut reader, LineFault::Read));
    assert!(rt; gives(&mut reader, b"ef"));
    assert!(rt; is_at_end(&mut reader));
    assert!(rt; reader.lines() == 2);
}

#[test]
fn no_more_bytes_are_taken_than_may_be(rt: HostRuntime) {
    let mut reader = reader_over(&rt, rt.alloc(), b"abcdefgh\nijklmnop", &[], 12);
    assert!(rt; gives(&mut reader, b"abcdefgh"));
    assert!(rt; fails_by(&mut reader, LineFault::LongStream));
    assert!(rt; leaves(rt.alloc(), reader, b"lmnop"));
}
