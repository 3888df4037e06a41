//! The status of a run that began, by the ends of its streams and readers and what else arose.

ghost use Rattle.std.specs.Prelude.{◌≡◌, ◌==◌, true, false};
ghost use Rattle.std.specs.List.{list_any};
ghost use Rattle.rpq_text.specs.Statuses.{status_of_end, status_of_reader, status_of_sink, arose};
ghost use Rattle.rpq_text.specs.Statuses.{first_status, memory_status, IsStatusOf};

use crate::ends::SinkName;
use crate::status;
use history_model::Why;
use live_asks::ReaderEnd;
use stream_tuples::StreamEnd;

/// The status of a run in which nothing but this end of a stream arose.
pub fn status_of_end(end: &StreamEnd) -> u8
    ensures { result ≡ status_of_end end.now }
{
    match end {
        StreamEnd::Whole => status::DONE,
        StreamEnd::Line { .. } | StreamEnd::LongLine { .. } => status::LINE,
        StreamEnd::LongStream | StreamEnd::Full => status::LIMIT,
        StreamEnd::Read => status::READ,
        StreamEnd::Faults | StreamEnd::Closed(Why::Write) => status::WRITE,
        StreamEnd::Closed(Why::Memory) | StreamEnd::Memory => status::MEMORY,
    }
}

/// The status of a run in which nothing but this end of a reader arose. A history that was shut for
/// it has its own cause.
pub fn status_of_reader(end: &ReaderEnd) -> u8
    ensures { result ≡ status_of_reader end.now }
{
    match end {
        ReaderEnd::Whole | ReaderEnd::Left { .. } | ReaderEnd::Closed(_) => status::DONE,
        ReaderEnd::LongText | ReaderEnd::Read | ReaderEnd::Write => status::READER,
        ReaderEnd::Memory => status::MEMORY,
    }
}

/// The status of a run whose streams and readers ended so, in which writes of these sinks failed,
/// and in which memory ran out elsewhere, or didn't.
pub fn run_status(
    ends: &[StreamEnd],
    readers: &[ReaderEnd],
    failed: &[SinkName],
    short_of_memory: bool,
) -> u8
    ensures status { IsStatusOf ends.now readers.now failed.now result }
    ensures memory { short_of_memory ≡ true → result ≡ memory_status }
    ensures others { short_of_memory ≡ false
        → result ≡ first_status ends.now readers.now failed.now }
{
    if short_of_memory {
        status::MEMORY
    } else {
        first_status(ends, readers, failed)
    }
}

/// The first status, in their order, that arose in a run whose streams and readers ended so, and in
/// which writes of these sinks failed.
pub fn first_status(ends: &[StreamEnd], readers: &[ReaderEnd], failed: &[SinkName]) -> u8
    ensures { result ≡ first_status ends.now readers.now failed.now }
{
    if arose(ends, readers, failed, status::MEMORY) {
        status::MEMORY
    } else if arose(ends, readers, failed, status::WRITE) {
        status::WRITE
    } else if arose(ends, readers, failed, status::LIMIT) {
        status::LIMIT
    } else if arose(ends, readers, failed, status::READ) {
        status::READ
    } else if arose(ends, readers, failed, status::LINE) {
        status::LINE
    } else if arose(ends, readers, failed, status::READER) {
        status::READER
    } else {
        status::DONE
    }
}

/// Whether the status is that of an end of a stream or of a reader, or that of a failed write of a
/// sink.
fn arose(ends: &[StreamEnd], readers: &[ReaderEnd], failed: &[SinkName], status: u8) -> bool
    ensures { result ≡ arose ends.now readers.now failed.now status }
{
    is_of_end(ends, status) || is_of_reader(readers, status) || is_of_sink(failed, status)
}

/// Whether the status is that of one of the ends.
fn is_of_end(ends: &[StreamEnd], status: u8) -> bool
    ensures { result ≡ list_any (λ end. status_of_end end == status) ends.now }
{
    ends.iter().any(|end| status_of_end(end) == status)
}

/// Whether the status is that of one of these ends of readers.
fn is_of_reader(readers: &[ReaderEnd], status: u8) -> bool
    ensures { result ≡ list_any (λ end. status_of_reader end == status) readers.now }
{
    readers.iter().any(|end| status_of_reader(end) == status)
}

/// Whether the status is that of a failed write of one of the sinks.
fn is_of_sink(failed: &[SinkName], status: u8) -> bool
    ensures { result ≡ list_any (λ sink. status_of_sink sink == status) failed.now }
{
    failed.iter().any(|sink| sink.status() == status)
}
