//! The items of a stream, one after another.

ghost use Rattle.std.specs.Prelude.{◌≡◌, ◌≤◌, ◌∷◌, [], length, Ok, Err, IfOk, IfErr, IfSome};
ghost use Rattle.rpq_io.specs.Counts.{CountsFault};
ghost use Rattle.text_items.specs.Limits.{line_limit};
ghost use Rattle.text_items.specs.Reading.{EndsLine};
ghost use Rattle.tuple_text.specs.FaultTexts.{fault_text};
ghost use Rattle.stream_tuples.specs.Faults.{fault_report, long_report, IsItemOf};
ghost use Rattle.stream_tuples.specs.Progress.{IsStreamReader, ReadsOn, EndsReading};
ghost use Rattle.stream_tuples.specs.StreamText.{fault_gives, stream_end, stream_reading};
ghost use Rattle.stream_tuples.specs.declared.ends.StreamEnd.{StreamEnd as End};

use crate::ends::StreamEnd;
use crate::faults::{FaultPolicy, FaultReport, StreamItem};
use rpq_io::{LineReader, Source};
use std::alloc::Global;
use text_items::{LineItems, TextEnd, next_item};
use tuple_text::{BadLine, read_tuple};

/// The next item of the stream, or how the stream ended: blank lines and comments are passed over.
/// By the policy a line that is faulty or too long is an item, or ends the stream.
pub fn next_stream_item<S: Source>(
    alloc: Global,
    policy: FaultPolicy,
    reader: &mut LineReader<S>,
) -> Result<StreamItem, StreamEnd>
    requires { IsStreamReader S.left reader.old }
    ensures plain { IfOk result (IsItemOf policy) }
    ensures ok { IfOk result (λ item.
        ReadsOn policy S.left reader.old reader.new (item ∷ [])) }
    ensures err { IfErr result (EndsReading policy S.left reader.old reader.new) }
    ensures read { CountsFault (result ≡ Err StreamEnd.Read)
        (S.faults reader.old.source) (S.faults reader.new.source) }
    ensures limits { reader.new.byte_limit ≡ reader.old.byte_limit }
{
    match next_item(&StreamLines { alloc, policy }, reader) {
        Ok(item) => Ok(item),
        Err(end) => Err(stream_end(end)),
    }
}

/// How a stream ends where the reading of its text does so.
fn stream_end(end: TextEnd<StreamEnd>) -> StreamEnd
    ensures { result ≡ stream_end end }
{
    match end {
        TextEnd::Whole => StreamEnd::Whole,
        TextEnd::LongText => StreamEnd::LongStream,
        TextEnd::Read => StreamEnd::Read,
        TextEnd::Memory => StreamEnd::Memory,
        TextEnd::Line(end) => end,
    }
}

/// What the lines of a stream give.
#[derive(Drop)]
struct StreamLines {
    alloc: Global,
    policy: FaultPolicy,
}

impl LineItems for StreamLines {
    ghost use Rattle.stream_tuples.specs.Faults.{IsItemOf};
    ghost use Rattle.stream_tuples.specs.StreamText.{stream_reading};

    type Item = StreamItem;

    type End = StreamEnd;

    ghost can_read = { λ _. Unit {0} };

    ghost reading = { λ lines. stream_reading lines.policy };

    ghost holds = { λ lines item. IsItemOf lines.policy item };

    fn of_line(&self, number: u64, line: &[u8]) -> Result<Option<StreamItem>, TextEnd<StreamEnd>> {
        match read_tuple(self.alloc, line) {
            Ok(Some(tuple)) => Ok(Some(StreamItem::Tuple(tuple))),
            Ok(None) => Ok(None),
            Err(BadLine::Memory) => Err(TextEnd::Memory),
            Err(fault) => of_faulty_line(self.alloc, self.policy, number, fault, line),
        }
    }

    fn of_long_line(
        &self,
        number: u64,
        front: &[u8],
    ) -> Result<Option<StreamItem>, TextEnd<StreamEnd>> {
        match self.policy {
            FaultPolicy::Stop => Err(TextEnd::Line(StreamEnd::LongLine { line: number })),
            FaultPolicy::Report => match FaultReport::of_long_line(self.alloc, number, front) {
                Ok(report) => Ok(Some(StreamItem::Fault(report))),
                Err(_) => Err(TextEnd::Memory),
            },
        }
    }
}

/// What the line with this number gives, which has this fault.
fn of_faulty_line(
    alloc: Global,
    policy: FaultPolicy,
    number: u64,
    fault: BadLine,
    line: &[u8],
) -> Result<Option<StreamItem>, TextEnd<StreamEnd>>
    ensures ok { IfOk result (λ found. fault_gives policy (End.Line number fault)
        (fault_report number (fault_text fault) line.now) ≡ Ok found) }
    ensures err { IfErr result (EndsLine (fault_gives policy (End.Line number fault)
        (fault_report number (fault_text fault) line.now))) }
    ensures good { IfOk result (λ found. IfSome found (IsItemOf policy)) }
{
    match policy {
        FaultPolicy::Stop => Err(TextEnd::Line(StreamEnd::Line {
            line: number,
            fault,
        })),
        FaultPolicy::Report => match FaultReport::of_line(alloc, number, fault, line) {
            Ok(report) => Ok(Some(StreamItem::Fault(report))),
            Err(_) => Err(TextEnd::Memory),
        },
    }
}
