//! The worker of a reader that asks beside the run.

ghost use Rattle.std.specs.Prelude.{◌≡◌, ◌≤◌, length, IfOk, IfErr, IsErrAnd, OnOk, OnErr};
ghost use Rattle.std.specs.Io.KnownBytes.{append_known};
ghost use Rattle.rpq_io.specs.Counts.{CountsFault};
ghost use Rattle.rpq_io.specs.Writes.{WritesProperPrefix};
ghost use Rattle.stream_history.specs.History.{IsPassOf, HasSeen};
ghost use Rattle.live_asks.specs.declared.ends.ReaderEnd.{ReaderEnd as End};
ghost use Rattle.live_asks.specs.Items.{IsItemInRange};
ghost use Rattle.live_asks.specs.Progress.{IsAskEnd};
ghost use Rattle.stream_threads.specs.Live.{IsNewReaderWork, HasServed};
ghost use Rattle.stream_threads.specs.Serving.{IsServing, ServesOne, EndsServing, IsAnswerText};
ghost use Rattle.stream_threads.specs.Serving.{IsUnanswered, PutsAnswer, EndsAtItem, HasStopped};
ghost use Rattle.stream_threads.specs.Serving.{IsLastEnd};

use crate::looking::{fresh_reply, shut_reason};
use crate::reader_work::ReaderWork;
use crate::run_parts::RunParts;
use history_model::fronts_are_legal;
use live_asks::{ReaderEnd, ReaderItem, next_ask, refusal_of_fault, refusal_of_long};
use rpq_io::{Gate, Sink, Source, put_all};
use std::sync::Wait;
use stream_history::Pass;

/// Answers the lines of the reader, each before it reads the next one, up to the end of its asks or
/// the line that ends it.
///
/// A reader whose asks can't be read or whose replies can't be written ends alone. Once the history
/// is shut it ends at the next line that asks for something, but the line that ends it is answered.
pub fn serve_reader<S: Source, K: Sink, G: Gate, R: Wait>(
    shared: &RunParts<'_, R, G>,
    work: &mut ReaderWork<S, K>,
)
    requires new { IsNewReaderWork S.left S.faults K.written K.faults shared.now.history.now
        work.old }
    requires queries { shared.now.queries.now ≡ shared.now.history.now.terms.queries }
    requires few { length shared.now.queries.now ≤ 64 }
    ensures { HasServed S.left S.faults K.written K.faults shared.now.history.now
        work.old.reader.source work.old.pass work.new }
{
    work.end = answer_all(shared, work);
}

/// Answers the lines of the reader, and answers how it ended.
fn answer_all<S: Source, K: Sink, G: Gate, R: Wait>(
    shared: &RunParts<'_, R, G>,
    work: &mut ReaderWork<S, K>,
) -> ReaderEnd
    requires new { IsNewReaderWork S.left S.faults K.written K.faults shared.now.history.now
        work.old }
    requires queries { shared.now.queries.now ≡ shared.now.history.now.terms.queries }
    requires few { length shared.now.queries.now ≤ 64 }
    ensures number { work.new.pass.number ≡ work.old.pass.number }
    ensures ended { HasStopped S.left S.faults K.written K.faults shared.now.history.now
        work.old work.new result }
{
    loop {
        if let Err(end) = answer_next(shared, work) {
            return end;
        }
    }
}

/// Answers the next line that asks for something, or answers how the reader ended.
fn answer_next<S: Source, K: Sink, G: Gate, R: Wait>(
    shared: &RunParts<'_, R, G>,
    work: &mut ReaderWork<S, K>,
) -> Result<(), ReaderEnd>
    requires serving { IsServing S.left shared.now.history.now work.old }
    requires queries { shared.now.queries.now ≡ shared.now.history.now.terms.queries }
    requires few { length shared.now.queries.now ≤ 64 }
    ensures number { work.new.pass.number ≡ work.old.pass.number }
    ensures ok { OnOk result
        (ServesOne S.left K.written shared.now.history.now work.old work.new) }
    ensures err { IfErr result
        (EndsServing S.left K.written shared.now.history.now work.old work.new) }
    ensures read { CountsFault (IsErrAnd result (λ end. end ≡ End.Read))
        (S.faults work.old.reader.source) (S.faults work.new.reader.source) }
    ensures write { CountsFault (IsErrAnd result (λ end. end ≡ End.Write))
        (K.faults work.old.replies) (K.faults work.new.replies) }
{
    fronts_are_legal(); // called for its clause
    match next_ask(shared.context.alloc, shared.queries, &mut work.reader) {
        Ok(item) => answer_item(shared, &mut work.pass, &mut work.replies, item),
        Err(end) => Err(last_end(&mut work.replies, end)),
    }
}

/// Answers the item, or answers how it ended the reader.
fn answer_item<K: Sink, G: Gate, R: Wait>(
    shared: &RunParts<'_, R, G>,
    pass: &mut Pass,
    replies: &mut K,
    item: ReaderItem,
) -> Result<(), ReaderEnd>
    requires is { IsPassOf shared.now.history.now pass.old }
    requires queries { shared.now.queries.now ≡ shared.now.history.now.terms.queries }
    requires range { IsItemInRange (length shared.now.queries.now) item }
    ensures seen { HasSeen shared.now.history.now pass.old pass.new }
    ensures ok { OnOk result (PutsAnswer shared.now.history.now pass.new.seen item
        (K.written replies.old) (K.written replies.new)) }
    ensures err { IfErr result (EndsAtItem shared.now.history.now pass.new.seen item
        (K.written replies.old) (K.written replies.new)) }
    ensures write { CountsFault (IsErrAnd result (λ end. end ≡ End.Write))
        (K.faults replies.old) (K.faults replies.new) }
{
    let text = text_of_answer(shared, pass, item)?;
    put_text(replies, &text)
}

/// Writes the text on the replies.
fn put_text<K: Sink>(replies: &mut K, text: &[u8]) -> Result<(), ReaderEnd>
    ensures ok { OnOk result
        (K.written replies.new ≡ append_known (K.written replies.old) text.now) }
    ensures err { OnErr result
        (WritesProperPrefix text.now (K.written replies.old) (K.written replies.new)) }
    ensures only { IfErr result (λ end. end ≡ End.Write) }
    ensures faults { CountsFault (IsErrAnd result (λ end. end ≡ End.Write))
        (K.faults replies.old) (K.faults replies.new) }
{
    match put_all(replies, text) {
        Ok(()) => Ok(()),
        Err(_) => Err(ReaderEnd::Write),
    }
}

/// What the item is answered with. It isn't answered if the history is shut by now, or where memory
/// runs out.
fn text_of_answer<G: Gate, R: Wait>(
    shared: &RunParts<'_, R, G>,
    pass: &mut Pass,
    item: ReaderItem,
) -> Result<Vec<u8>, ReaderEnd>
    requires is { IsPassOf shared.now.history.now pass.old }
    requires queries { shared.now.queries.now ≡ shared.now.history.now.terms.queries }
    requires range { IsItemInRange (length shared.now.queries.now) item }
    ensures seen { HasSeen shared.now.history.now pass.old pass.new }
    ensures ok { IfOk result (λ text.
        IsAnswerText shared.now.history.now pass.new.seen item text.items) }
    ensures err { IfErr result (IsUnanswered pass.new.seen) }
{
    if let Some(why) = shut_reason(shared, pass)? {
        return Err(ReaderEnd::Closed(why));
    }
    let alloc = shared.context.alloc;
    match item {
        ReaderItem::Asked(ask) => Ok(fresh_reply(shared, pass, ask)?.into_text()),
        ReaderItem::Faulty(fault) => Ok(refusal_of_fault(alloc, fault)?),
        ReaderItem::Long { line } => Ok(refusal_of_long(alloc, line)?),
    }
}

/// The end of a reader whose asks were read to this end: the line that ends it is answered.
fn last_end<K: Sink>(replies: &mut K, end: ReaderEnd) -> ReaderEnd
    requires { IsAskEnd end }
    ensures last { IsLastEnd (K.written replies.old) (K.written replies.new) end result }
    ensures faults { CountsFault (result ≡ End.Write) (K.faults replies.old)
        (K.faults replies.new) }
{
    let ReaderEnd::Left { line: _ } = end else {
        return end;
    };
    match put_all(replies, b"end\n") {
        Ok(()) => end,
        Err(_) => ReaderEnd::Write,
    }
}
