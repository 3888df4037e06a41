//! The text of the lines on errors, each in room of a fixed size, so that none takes memory.

ghost use Rattle.std.specs.Prelude.{◌≡◌, ◌+◌, ◌≤◌, ◌++◌, length, codes, decimal};
ghost use Rattle.std.specs.List.{flat_map};
ghost use Rattle.path_syntax.specs.FaultTexts.{bad_expr_text};
ghost use Rattle.tuple_text.specs.FaultTexts.{fault_text};
ghost use Rattle.ask_text.specs.FaultTexts.{ask_kind_text};
ghost use Rattle.join_file.specs.FaultTexts.{joins_kind_text};
ghost use Rattle.rpq_text.specs.ErrorLines.{file_text, query_text, joins_text, asks_text};
ghost use Rattle.rpq_text.specs.ErrorLines.{line_text, end_line, reader_line, read_line};
ghost use Rattle.rpq_text.specs.ErrorLines.{write_line, unwritten_line, opening_line, memory_line};
ghost use Rattle.rpq_text.specs.WordTexts.{not_contained_front};

use crate::ends::{SinkName, Which};
use crate::status;
use arrayvec::ArrayString;
use ask_text::AskFault;
use itoa::Buffer;
use join_file::JoinFileFault;
use live_asks::ReaderEnd;
use path_syntax::BadExpr;
use stream_tuples::StreamEnd;
use tuple_text::BadLine;

/// A line with its line feed, or nothing.
pub type Line = ArrayString<256>;

/// The line of a stream's end, if it has one.
#[tactic(auto, unfolding(crate::specs::ErrorLines::end_line))]
pub fn end_line(stream: u32, end: StreamEnd) -> Line
    ensures { result.bytes ≡ end_line stream end }
{
    let which = Which::Stream(stream);
    match end {
        StreamEnd::Line { line, fault } => fault_line(stream, line, fault),
        StreamEnd::LongLine { line } => stream_line(stream, line, "too long", ""),
        StreamEnd::LongStream => file_line("rpq: ", which, ": too long\n"),
        StreamEnd::Read => read_line(which),
        StreamEnd::Faults => unwritten_line(Which::FaultsOf(stream)),
        StreamEnd::Full => file_line("rpq: ", which, ": history full\n"),
        StreamEnd::Whole | StreamEnd::Closed(_) | StreamEnd::Memory => Line::new(),
    }
}

/// The line of a reader's end, if it has one.
#[tactic(auto, unfolding(crate::specs::ErrorLines::reader_line))]
pub fn reader_line(reader: u32, end: ReaderEnd) -> Line
    ensures { result.bytes ≡ reader_line reader end }
{
    match end {
        ReaderEnd::LongText => file_line("rpq: ", Which::AsksOf(reader), ": too long\n"),
        ReaderEnd::Read => read_line(Which::AsksOf(reader)),
        ReaderEnd::Write => unwritten_line(Which::RepliesOf(reader)),
        ReaderEnd::Whole | ReaderEnd::Left { .. } | ReaderEnd::Closed(_) | ReaderEnd::Memory =>
            Line::new(),
    }
}

/// The line of a failed write of a sink.
pub fn write_line(sink: SinkName) -> Line
    ensures { result.bytes ≡ write_line sink }
{
    match sink {
        SinkName::Events => line_of(&["rpq: write failed: events\n"]),
        SinkName::Replies => line_of(&["rpq: write failed: replies\n"]),
        SinkName::Save => line_of(&["rpq: write failed: save\n"]),
    }
}

/// The line of a failed read of a file.
pub fn read_line(which: Which) -> Line
    ensures { result.bytes ≡ read_line which }
{
    file_line("rpq: read failed: ", which, "\n")
}

/// The line of a file that couldn't be written.
fn unwritten_line(which: Which) -> Line
    ensures { result.bytes ≡ unwritten_line which }
{
    file_line("rpq: write failed: ", which, "\n")
}

/// The line of a failed opening of a file.
pub fn opening_line(which: Which) -> Line
    ensures { result.bytes ≡ opening_line which }
{
    match which {
        Which::Queries
        | Which::Joins
        | Which::Asks
        | Which::From
        | Which::Stream(_)
        | Which::AsksOf(_) => read_line(which),
        Which::Replies => write_line(SinkName::Replies),
        Which::Save => write_line(SinkName::Save),
        Which::FaultsOf(_) | Which::RepliesOf(_) => unwritten_line(which),
    }
}

/// The line for out of memory, on its status.
#[tactic(auto, unfolding(crate::specs::ErrorLines::memory_line))]
pub fn memory_line(status: u8) -> Line
    ensures { result.bytes ≡ memory_line status }
{
    if status == status::MEMORY {
        line_of(&["rpq: memory\n"])
    } else {
        Line::new()
    }
}

/// What is wrong with the expression in a line of the queries file.
pub fn expr_line(line: u64, fault: BadExpr) -> Line
    ensures { result.bytes ≡ query_text line (bad_expr_text fault) }
{
    match fault {
        BadExpr::Unexpected(place) => place_line(line, "unexpected byte ", place),
        BadExpr::Ended => query_line(line, "expression ended", ""),
        BadExpr::TooLarge => query_line(line, "expression too large", ""),
        BadExpr::LongName(place) => place_line(line, "long label ", place),
        BadExpr::Memory => query_line(line, "out of memory", ""),
    }
}

/// A text and a place, said of a line of the queries file.
fn place_line(line: u64, text: &str, place: u32) -> Line
    requires { length text.now ≤ 50 }
    ensures { result.bytes ≡ query_text line (text.now ++ decimal place) }
{
    let mut digits = Buffer::new();
    query_line(line, text, digits.format(u64::from(place)))
}

/// A text and then another, said of a line of the queries file.
#[tactic(auto, unfolding(crate::specs::ErrorLines::query_text))]
pub fn query_line(line: u64, text: &str, more: &str) -> Line
    requires { length text.now + length more.now ≤ 100 }
    ensures { result.bytes ≡ query_text line (text.now ++ more.now) }
{
    let mut digits = Buffer::new();
    let line = digits.format(line);
    line_of(&["rpq: queries line ", line, ": ", text, more, "\n"])
}

/// What is wrong with a line of the joins file.
#[tactic(auto, unfolding(crate::specs::ErrorLines::joins_text))]
pub fn joins_fault_line(fault: &JoinFileFault) -> Line
    ensures { result.bytes ≡ joins_text fault.now.line (joins_kind_text fault.now.kind) }
{
    let mut digits = Buffer::new();
    let line = digits.format(fault.line);
    line_of(&["rpq: joins line ", line, ": ", fault.kind.text(), "\n"])
}

/// What is wrong with a line of the asks file.
#[tactic(auto, unfolding(crate::specs::ErrorLines::asks_text))]
pub fn ask_fault_line(fault: AskFault) -> Line
    ensures { result.bytes ≡ asks_text fault.line (ask_kind_text fault.kind) }
{
    let mut digits = Buffer::new();
    let line = digits.format(fault.line);
    line_of(&["rpq: asks line ", line, ": ", fault.kind.text(), "\n"])
}

/// What is wrong with a line of a stream.
fn fault_line(stream: u32, line: u64, fault: BadLine) -> Line
    ensures { result.bytes ≡ line_text stream line (fault_text fault) }
{
    match fault {
        BadLine::Fields(count) => number_line(stream, line, "fields ", count),
        BadLine::Time => stream_line(stream, line, "time", ""),
        BadLine::TimeRange => stream_line(stream, line, "time range", ""),
        BadLine::BadName(place) => number_line(stream, line, "name ", place),
        BadLine::Op => stream_line(stream, line, "operation", ""),
        BadLine::Until => stream_line(stream, line, "until", ""),
        BadLine::Memory => stream_line(stream, line, "memory", ""),
    }
}

/// A text and a number, said of a line of a stream.
fn number_line(stream: u32, line: u64, text: &str, number: u32) -> Line
    requires { length text.now ≤ 50 }
    ensures { result.bytes ≡ line_text stream line (text.now ++ decimal number) }
{
    let mut digits = Buffer::new();
    stream_line(stream, line, text, digits.format(u64::from(number)))
}

/// The beginning of the line on a query whose language lacks the property of containment; the three
/// words that show it are to follow.
pub fn not_contained_front(line: u64) -> Line
    ensures { result.bytes ≡ not_contained_front line }
{
    let mut digits = Buffer::new();
    line_of(&["rpq: queries line ", digits.format(line), ": not contained"])
}

/// A text and then another, said of a line of a stream.
#[tactic(auto, unfolding(crate::specs::ErrorLines::line_text))]
fn stream_line(stream: u32, line: u64, text: &str, more: &str) -> Line
    requires { length text.now + length more.now ≤ 100 }
    ensures { result.bytes ≡ line_text stream line (text.now ++ more.now) }
{
    let mut stream_digits = Buffer::new();
    let mut line_digits = Buffer::new();
    let stream = stream_digits.format(u64::from(stream));
    let line = line_digits.format(line);
    line_of(&[
        "rpq: stream ",
        stream,
        " line ",
        line,
        ": ",
        text,
        more,
        "\n",
    ])
}

/// A file between two texts.
pub fn file_line(before: &str, which: Which, after: &str) -> Line
    requires { length before.now + length after.now ≤ 100 }
    ensures { result.bytes ≡ before.now ++ file_text which ++ after.now }
{
    match which {
        Which::Queries => line_of(&[before, "queries", after]),
        Which::Joins => line_of(&[before, "joins", after]),
        Which::Asks => line_of(&[before, "asks", after]),
        Which::From => line_of(&[before, "from", after]),
        Which::Replies => line_of(&[before, "replies", after]),
        Which::Save => line_of(&[before, "save", after]),
        Which::Stream(number) => {
            let mut digits = Buffer::new();
            let number = digits.format(u64::from(number));
            line_of(&[before, "stream ", number, after])
        }
        Which::FaultsOf(number) => {
            let mut digits = Buffer::new();
            let number = digits.format(u64::from(number));
            line_of(&[before, "faults ", number, after])
        }
        Which::AsksOf(number) => line_of_reader(before, number, after),
        Which::RepliesOf(number) => line_of_reader(before, number, after),
    }
}

/// A file of the reader with this number between two texts.
fn line_of_reader(before: &str, number: u32, after: &str) -> Line
    requires { length before.now + length after.now ≤ 100 }
    ensures { result.bytes ≡ before.now ++ (codes "reader " ++ decimal number) ++ after.now }
{
    let mut digits = Buffer::new();
    let number = digits.format(u64::from(number));
    line_of(&[before, "reader ", number, after])
}

/// The pieces, one after another.
pub fn line_of(pieces: &[&str]) -> Line
    requires { length (flat_map (λ piece. piece.now) pieces.now) ≤ 256 }
    ensures { result.bytes ≡ flat_map (λ piece. piece.now) pieces.now }
{
    let mut line = Line::new();
    for piece in pieces {
        line.push_str(piece);
    }
    line
}
