//! The lines on errors, each of which goes out in one write where it has room and the sink takes it
//! whole.

ghost use Rattle.std.specs.Prelude.{◌≤◌, ◌++◌, codes, length};
ghost use Rattle.std.specs.List.{flat_map};
ghost use Rattle.query_file.specs.FaultTexts.{query_kind_text};
ghost use Rattle.rpq_text.specs.ErrorLines.{query_text, start_line, end_lines, write_line};
ghost use Rattle.rpq_text.specs.ErrorLines.{reader_lines, run_lines};
ghost use Rattle.rpq_text.specs.Limits.{stream_limit};
ghost use Rattle.rpq_text.specs.WordTexts.{not_contained_front, spaced_word};
ghost use Rattle.rpq_run.specs.Beside.{reader_limit};
ghost use Rattle.rpq_run.specs.Written.{Tells};

use crate::word_texts::end_with_words;
use itoa::Buffer;
use live_asks::ReaderEnd;
use query_file::{QueryFault, QueryKind};
use rpq_base::Word;
use rpq_io::{Failed, Sink, put_all};
use rpq_text::{
    Line, SinkName, StartFault, ask_fault_line, end_line, expr_line, file_line, joins_fault_line,
    line_of, memory_line, not_contained_front, opening_line, query_line, read_line, reader_line,
    write_line,
};
use rpq_words::usage_line;
use stream_tuples::StreamEnd;

/// The number of the first stream, and of the first reader.
const FIRST: u32 = 1;

/// Writes the line of a run that didn't begin.
pub fn tell_start<S: Sink>(errors: &mut S, fault: &StartFault) -> Result<(), Failed>
    ensures { Tells S.written S.faults (start_line fault.now) errors.old errors.new result }
{
    match fault {
        StartFault::Words => put_line(errors, &line_of(&["rpq: words\n", usage_line(), "\n"])),
        StartFault::Queries(fault) => tell_query(errors, fault),
        StartFault::Joins(fault) => put_line(errors, &joins_fault_line(fault)),
        StartFault::Asks(fault) => put_line(errors, &ask_fault_line(*fault)),
        StartFault::Open(which) => put_line(errors, &opening_line(*which)),
        StartFault::Read(which) => put_line(errors, &read_line(*which)),
        StartFault::Long(which) => put_line(errors, &file_line("rpq: ", *which, ": too long\n")),
        StartFault::Memory => put_line(errors, &line_of(&["rpq: memory\n"])),
    }
}

/// Writes the line of a fault of the queries file.
fn tell_query<S: Sink>(errors: &mut S, fault: &QueryFault) -> Result<(), Failed>
    ensures { Tells S.written S.faults
        (query_text fault.now.line (query_kind_text fault.now.kind))
        errors.old errors.new result }
{
    let line = fault.line;
    match &fault.kind {
        QueryKind::Expr(fault) => put_line(errors, &expr_line(line, *fault)),
        QueryKind::TooManyLabels(count) => {
            let mut digits = Buffer::new();
            put_line(errors, &query_line(line, digits.format(*count), " labels"))
        }
        QueryKind::NotContained { p, q, w } => tell_not_contained(errors, line, &[p, q, w]),
        kind @ (QueryKind::Shape
        | QueryKind::Number
        | QueryKind::Twice(_)
        | QueryKind::TooMany
        | QueryKind::NoQuery
        | QueryKind::TooManyStates
        | QueryKind::Memory) => put_line(errors, &query_line(line, kind.text(), "")),
    }
}

/// Writes that the query in this line of the queries file takes simple paths and its language lacks
/// the property of containment, which these words show. They may be longer than a line has room
/// for, so they go out piece by piece.
fn tell_not_contained<S: Sink>(errors: &mut S, line: u64, words: &[&Word]) -> Result<(), Failed>
    ensures { Tells S.written S.faults
        (not_contained_front line
        ++ (flat_map (λ word. spaced_word word.now) words.now ++ codes "\n"))
        errors.old errors.new result }
{
    put_line(errors, &not_contained_front(line))?;
    end_with_words(errors, words)
}

/// Writes the lines of a run that began: those of its streams' ends, those of the sinks of which a
/// write failed, those of its readers' ends, and that of out of memory.
pub fn tell_end<S: Sink>(
    errors: &mut S,
    ends: &[StreamEnd],
    readers: &[ReaderEnd],
    failed: &[SinkName],
    status: u8,
) -> Result<(), Failed>
    requires few { length ends.now ≤ stream_limit }
    requires few_readers { length readers.now ≤ reader_limit }
    ensures { Tells S.written S.faults (run_lines ends.now readers.now failed.now status)
        errors.old errors.new result }
{
    tell_ends(errors, ends)?;
    tell_writes(errors, failed)?;
    tell_readers(errors, readers)?;
    put_line(errors, &memory_line(status))
}

/// Writes the lines of the streams' ends.
fn tell_ends<S: Sink>(errors: &mut S, ends: &[StreamEnd]) -> Result<(), Failed>
    requires { length ends.now ≤ stream_limit }
    ensures { Tells S.written S.faults (end_lines 1 ends.now) errors.old errors.new result }
{
    for (place, end) in ends.iter().enumerate() {
        put_line(errors, &end_line(FIRST + place as u32, *end))?;
    }
    Ok(())
}

/// Writes the lines of the sinks of which a write failed.
fn tell_writes<S: Sink>(errors: &mut S, failed: &[SinkName]) -> Result<(), Failed>
    ensures { Tells S.written S.faults (flat_map write_line failed.now)
        errors.old errors.new result }
{
    for sink in failed {
        put_line(errors, &write_line(*sink))?;
    }
    Ok(())
}

/// Writes the lines of the readers' ends.
fn tell_readers<S: Sink>(errors: &mut S, readers: &[ReaderEnd]) -> Result<(), Failed>
    requires { length readers.now ≤ reader_limit }
    ensures { Tells S.written S.faults (reader_lines 1 readers.now) errors.old errors.new result }
{
    for (place, end) in readers.iter().enumerate() {
        put_line(errors, &reader_line(FIRST + place as u32, *end))?;
    }
    Ok(())
}

/// Writes a line.
fn put_line<S: Sink>(errors: &mut S, line: &Line) -> Result<(), Failed>
    ensures { Tells S.written S.faults line.now.bytes errors.old errors.new result }
{
    put_all(errors, line.as_str().as_bytes())
}
