//! Readers, as they are served and as they end.

ghost use Rattle.std.specs.Prelude.{◌≡◌, IfOk, IfErr, false};
ghost use Rattle.rpq_io.specs.Files.{IsNewSink};
ghost use Rattle.live_asks.specs.Readers.{IsNewAskReader};

use crate::ends::ReaderEnd;
use rpq_base::Memory;
use rpq_io::{LineReader, Sink, Source};
use std::alloc::Global;
use text_items::{LINE_LIMIT, MOST_BYTES};

/// A reader that is still to be served: the lines of its asks, and where its replies go.
#[derive(Drop)]
pub struct AskReader<S: Source, K> {
    pub reader: LineReader<S>,
    pub replies: K,
}

/// A reader that was served: how it ended, its source as it stands after the bytes that were taken,
/// and the sink that has its replies.
#[derive(Drop)]
pub struct ReaderOutcome<S, K> {
    pub end: ReaderEnd,
    pub source: S,
    pub replies: K,
}

/// A reader that has taken nothing. Its asks may have fewer than 2^62 bytes, in lines of at most
/// 1,024. Where memory is refused the source and the sink come back.
pub fn new_ask_reader<S: Source, K: Sink>(
    alloc: Global,
    source: S,
    replies: K,
) -> Result<AskReader<S, K>, (S, K, Memory)>
    requires untold { S.has_told_end source ≡ false }
    requires no_fault { S.faults source ≡ 0 }
    requires replies { IsNewSink K.written K.faults replies }
    ensures ok { IfOk result (λ one. one.reader.source ≡ source) }
    ensures replies { IfOk result (λ one. one.replies ≡ replies) }
    ensures new { IfOk result (IsNewAskReader S.left S.faults K.written K.faults) }
    ensures err { IfErr result (λ refused. (refused.0 ≡ source) × (refused.1 ≡ replies)) }
{
    match LineReader::new(alloc, source, LINE_LIMIT, MOST_BYTES) {
        Ok(reader) => Ok(AskReader { reader, replies }),
        Err((source, memory)) => Err((source, replies, memory)),
    }
}
