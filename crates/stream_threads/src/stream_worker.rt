//! The worker of a stream.

ghost use Rattle.std.specs.Prelude.{◌≡◌, ◌≤◌, ◌∷◌, [], ◌++◌, true, length, is_some};
ghost use Rattle.std.specs.Prelude.{IfErr, OnOk, OnErr, IsErrAnd};
ghost use Rattle.std.specs.Io.KnownBytes.{append_known};
ghost use Rattle.rpq_base.specs.Plain.{IsPlainTuple};
ghost use Rattle.rpq_io.specs.Counts.{CountsFault};
ghost use Rattle.rpq_io.specs.Writes.{WritesProperPrefix};
ghost use Rattle.history_model.specs.declared.line.Why.{Why as Reason};
ghost use Rattle.history_model.specs.Lines.{entries, IsShutFor};
ghost use Rattle.stream_history.specs.History.{IsOpenPass};
ghost use Rattle.stream_tuples.specs.History.{policy_of_sink};
ghost use Rattle.stream_tuples.specs.Progress.{IsStreamReader};
ghost use Rattle.stream_threads.specs.Inputs.{IsNewInput};
ghost use Rattle.stream_threads.specs.Streams.{tuples_of, IsNewPass};
ghost use Rattle.stream_threads.specs.Started.{HasGiven};
ghost use Rattle.stream_threads.specs.Taking.{TakesOne, EndsTaking, HasTaken, IsRefusal};
ghost use Rattle.stream_threads.specs.Taking.{written_on, failed_on};

use crate::run_parts::RunParts;
use crate::stream_input::StreamInput;
use rpq_base::Tuple;
use rpq_io::{Gate, Sink, Source, Who, put_all};
use std::sync::Wait;
use stream_history::{AppendFault, Pass};
use stream_tuples::{FaultPolicy, FaultReport, StreamEnd, StreamItem, next_stream_item};

/// What the worker of a stream gives back.
#[derive(Drop)]
pub struct StreamResult<S, K> {
    pub pass: Pass,
    pub source: S,
    pub end: StreamEnd,
    /// The sink of its faulty lines, if it was given one.
    pub faults: Option<K>,
}

/// Appends the tuples of the stream, and ends it.
///
/// A faulty line ends it too, unless there is a sink for what is wrong with it: then it's told
/// there before the next line is read, and passed over. A stream whose faults can't be written ends
/// alone.
pub fn serve_stream<S: Source, K: Sink, G: Gate, R: Wait>(
    shared: &RunParts<'_, R, G>,
    mut pass: Pass,
    mut input: StreamInput<S, K>,
) -> StreamResult<S, K>
    requires pass { IsNewPass shared.now.history.now pass }
    requires input { IsNewInput shared.now.history.now.terms.cap S.left S.faults
        K.written K.faults input }
    ensures { HasGiven S.left S.faults K.written K.faults shared.now.history.now input pass result }
{
    shared.context.gate.pass(Who::Stream(pass.number()));
    let end = take_all(shared, &mut pass, &mut input);
    shared.history.end_stream(shared.context.rt, &mut pass);
    let StreamInput { reader, faults } = input;
    StreamResult {
        pass,
        source: reader.into_source(),
        end,
        faults,
    }
}

/// Takes the lines of the stream, and answers how it ended.
fn take_all<S: Source, K: Sink, G: Gate, R: Wait>(
    shared: &RunParts<'_, R, G>,
    pass: &mut Pass,
    input: &mut StreamInput<S, K>,
) -> StreamEnd
    requires pass { IsNewPass shared.now.history.now pass.old }
    requires input { IsNewInput shared.now.history.now.terms.cap S.left S.faults
        K.written K.faults input.old }
    ensures open { IsOpenPass shared.now.history.now pass.new }
    ensures number { pass.new.number ≡ pass.old.number }
    ensures taken { HasTaken S.left S.faults K.written K.faults shared.now.history.now
        input.old input.new pass.new result }
{
    loop {
        if let Err(end) = take_one(shared, pass, input) {
            return end;
        }
    }
}

/// Takes the next line of the stream that has a tuple, or a fault that is told, once the history has
/// room for a tuple; or answers how the stream ended.
fn take_one<S: Source, K: Sink, G: Gate, R: Wait>(
    shared: &RunParts<'_, R, G>,
    pass: &mut Pass,
    input: &mut StreamInput<S, K>,
) -> Result<(), StreamEnd>
    requires open { IsOpenPass shared.now.history.now pass.old }
    requires sound { IsStreamReader S.left input.old.reader }
    ensures open { IsOpenPass shared.now.history.now pass.new }
    ensures number { pass.new.number ≡ pass.old.number }
    ensures there { is_some input.new.faults ≡ is_some input.old.faults }
    ensures ok { OnOk result (TakesOne S.left K.written input.old input.new pass.old pass.new) }
    ensures err { IfErr result (EndsTaking S.left K.written shared.now.history.now
        input.old input.new pass.old pass.new) }
    ensures read { CountsFault (IsErrAnd result (λ end. end ≡ StreamEnd.Read))
        (S.faults input.old.reader.source) (S.faults input.new.reader.source) }
    ensures write { CountsFault (IsErrAnd result (λ end. end ≡ StreamEnd.Faults))
        (failed_on K.faults input.old.faults) (failed_on K.faults input.new.faults) }
    ensures limits { input.new.reader.byte_limit ≡ input.old.reader.byte_limit }
{
    // It sleeps before it reads, so that no tuple that was read waits for room.
    shared.history.wait_for_room(shared.context.rt, pass);
    let policy = policy_of_sink(&input.faults);
    let item = match next_stream_item(shared.context.alloc, policy, &mut input.reader) {
        Ok(item) => item,
        Err(end) => return Err(end),
    };
    match item {
        StreamItem::Tuple(tuple) => append_tuple(shared, pass, tuple),
        StreamItem::Fault(report) => put_report(&mut input.faults, &report),
    }
}

/// What is to be done with a faulty line of a stream.
fn policy_of_sink<K>(faults: &Option<K>) -> FaultPolicy
    ensures { result ≡ policy_of_sink faults.now }
{
    match faults {
        None => FaultPolicy::Stop,
        Some(_) => FaultPolicy::Report,
    }
}

/// Appends the tuple, or answers how the stream ended.
fn append_tuple<G: Gate, R: Wait>(
    shared: &RunParts<'_, R, G>,
    pass: &mut Pass,
    tuple: Tuple,
) -> Result<(), StreamEnd>
    requires open { IsOpenPass shared.now.history.now pass.old }
    requires plain { IsPlainTuple tuple }
    ensures open { IsOpenPass shared.now.history.now pass.new }
    ensures number { pass.new.number ≡ pass.old.number }
    ensures ok { OnOk result (tuples_of pass.new.mine ≡ tuples_of pass.old.mine ++ tuple ∷ []) }
    ensures err { OnErr result (tuples_of pass.new.mine ≡ tuples_of pass.old.mine) }
    ensures cause { IfErr result (IsRefusal shared.now.history.now pass.new.seen) }
{
    match shared.history.append(shared.context.rt, pass, tuple) {
        Ok(_) => Ok(()),
        Err(AppendFault::Closed(why)) => Err(StreamEnd::Closed(why)),
        Err(AppendFault::Full(_limit)) => Err(StreamEnd::Full),
        Err(AppendFault::Memory) => Err(StreamEnd::Memory),
    }
}

/// Writes the report of a fault, or answers how the stream ended. There is a sink for it.
fn put_report<K: Sink>(faults: &mut Option<K>, report: &FaultReport) -> Result<(), StreamEnd>
    requires { is_some faults.old ≡ true }
    ensures there { is_some faults.new ≡ is_some faults.old }
    ensures ok { OnOk result (written_on K.written faults.new
        ≡ append_known (written_on K.written faults.old) report.now) }
    ensures err { OnErr result (WritesProperPrefix report.now
        (written_on K.written faults.old) (written_on K.written faults.new)) }
    ensures only { IfErr result (λ end. end ≡ StreamEnd.Faults) }
    ensures count { CountsFault (IsErrAnd result (λ end. end ≡ StreamEnd.Faults))
        (failed_on K.faults faults.old) (failed_on K.faults faults.new) }
{
    match faults {
        Some(sink) => put_text(sink, report.as_bytes()),
        None => unreachable!(),
    }
}

/// Writes the text on the sink of the faulty lines.
fn put_text<K: Sink>(sink: &mut K, text: &[u8]) -> Result<(), StreamEnd>
    ensures ok { OnOk result
        (K.written sink.new ≡ append_known (K.written sink.old) text.now) }
    ensures err { OnErr result
        (WritesProperPrefix text.now (K.written sink.old) (K.written sink.new)) }
    ensures only { IfErr result (λ end. end ≡ StreamEnd.Faults) }
    ensures count { CountsFault (IsErrAnd result (λ end. end ≡ StreamEnd.Faults))
        (K.faults sink.old) (K.faults sink.new) }
{
    match put_all(sink, text) {
        Ok(()) => Ok(()),
        Err(_) => Err(StreamEnd::Faults),
    }
}
