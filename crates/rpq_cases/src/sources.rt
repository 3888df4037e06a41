//! Sources in memory, by lines and whole.

ghost use Rattle.std.specs.Prelude.{◌≡◌, false, IfOk};

use anyhow::{bail, ensure};
use case_lines::{Fields, Output, decoded};
use rpq_io::{LineFault, LineReader, MemorySource, Source, read_all};
use std::alloc::Global;

/// The lines of a source within its limits.
pub fn answer_source(alloc: Global, out: &mut Output, mut fields: Fields) -> anyhow::Result<()> {
    let piece = fields.number() as usize;
    let line_limit = fields.number() as usize;
    let byte_limit = fields.number();
    let text = decoded(alloc, fields.rest())?;
    let source = source_of(alloc, &text, piece)?;
    let mut reader = reader_over(alloc, source, line_limit, byte_limit)?;
    put_lines(out, &mut reader, text.len())
}

/// The source that gives the text in pieces of this length.
fn source_of(alloc: Global, text: &[u8], piece: usize) -> anyhow::Result<MemorySource>
    ensures { IfOk result (λ source. source.has_told_end ≡ false) }
{
    ensure!(piece > 0, "no piece");
    Ok(MemorySource::new(alloc, text, piece, &[])?)
}

/// The reader of the source's lines within these limits.
fn reader_over(
    alloc: Global,
    source: MemorySource,
    line_limit: usize,
    byte_limit: u64,
) -> anyhow::Result<LineReader<MemorySource>>
    requires { source.has_told_end ≡ false }
{
    ensure!(line_limit > 0 && byte_limit > 0, "no limits");
    ensure!(line_limit <= 65536, "a limit is too large");
    match LineReader::new(alloc, source, line_limit, byte_limit) {
        Ok(reader) => Ok(reader),
        Err(_) => bail!("no memory"),
    }
}

/// Puts the lines of the reader, at most so many, how they ended, and how many they were.
fn put_lines<S: Source>(
    out: &mut Output,
    reader: &mut LineReader<S>,
    most: usize,
) -> anyhow::Result<()> {
    for _ in 0..=most {
        if !put_line(out, reader)? {
            break;
        }
    }
    out.put(" ")?;
    out.put_shown(&reader.lines())
}

/// Puts the next line, or how the lines ended. Whether there was one.
fn put_line<S: Source>(out: &mut Output, reader: &mut LineReader<S>) -> anyhow::Result<bool> {
    match next_line(reader) {
        Ok(Some(line)) => put_text(out, &line),
        Ok(None) => put_end(out),
        Err(fault) => put_fault(out, fault),
    }
}

/// The next line. It promises nothing, since what is put is compared from outside.
fn next_line<S: Source>(reader: &mut LineReader<S>) -> Result<Option<Vec<u8>>, LineFault> {
    reader.next_line()
}

fn put_text(out: &mut Output, line: &[u8]) -> anyhow::Result<bool> {
    out.put_bytes(line)?;
    out.put("|")?;
    Ok(true)
}

fn put_end(out: &mut Output) -> anyhow::Result<bool> {
    out.put(" end")?;
    Ok(false)
}

fn put_fault(out: &mut Output, fault: LineFault) -> anyhow::Result<bool> {
    out.put(" ")?;
    out.put_shown(&fault)?;
    Ok(false)
}

/// All the bytes of a source.
pub fn answer_all(alloc: Global, out: &mut Output, mut fields: Fields) -> anyhow::Result<()> {
    let piece = fields.number() as usize;
    let byte_limit = fields.number();
    let text = decoded(alloc, fields.rest())?;
    let mut source = source_of(alloc, &text, piece)?;
    match read_all(alloc, &mut source, byte_limit) {
        Ok(bytes) => out.put_bytes(&bytes),
        Err(fault) => out.put_shown(&fault),
    }
}
