//! The sinks that are written beside the events are opened.

ghost use Rattle.std.specs.Prelude.{◌≡◌, [], is_some, option_copied, Some, None, IfOk, IfErr};
ghost use Rattle.std.specs.Prelude.{IfSome, IsSome};
ghost use Rattle.rpq_io.specs.Files.{IsNewSink};
ghost use Rattle.rpq_words.specs.Modes.{AreSettings};
ghost use Rattle.run_start.specs.Files.{AreUnderstoodFiles};
ghost use Rattle.run_start.specs.Given.{file_names, own_sink_names, sinks_with_faults};
ghost use Rattle.run_start.specs.Ready.{AreFaultSinks, AreNewSinks, fault_of};
ghost use Rattle.run_start.specs.Steps.{IsRefusal, IsRefusalOfFaults, IsRefusalOfOpening};
ghost use Rattle.run_start.specs.Steps.{OpensSink, UsesMore};

use crate::refusal::{Refusal, without_source};
use rpq_io::{Files, OpenFault, Sink};
use rpq_text::{StartFault, Which};
use rpq_words::{FileWord, Settings};
use std::alloc::Global;

/// The sinks that a run opens, and writes beside its events.
#[derive(Drop)]
pub struct OwnSinks<K: Sink> {
    /// Where the replies go, where a file is named for them.
    pub replies: Option<K>,
    /// Where the saved window goes, where a file is named for it.
    pub save: Option<K>,
}

/// New sinks for the replies and then for the saved window, as far as files are named for them.
pub fn open_sinks<F: Files>(
    files: &mut F,
    chosen: &Settings,
) -> Result<OwnSinks<F::Sink>, Refusal<F::Source>>
    requires { AreUnderstoodFiles chosen.now (F.holds files.old) }
    ensures sinks { IfOk result (AreNewSinks F.Sink.written F.Sink.faults chosen.now) }
    ensures refused { IfErr result
        (IsRefusal F.Source.left F.Source.faults chosen.now (F.holds files.old)) }
    ensures files { UsesMore F.holds F.opened F.made F.unread F.unmade chosen.now
        (file_names chosen.now) [] (own_sink_names chosen.now) (fault_of result)
        files.old files.new }
{
    let replies = open_optional_sink(files, chosen.replies(), Which::Replies)?;
    let save = open_optional_sink(files, chosen.save(), Which::Save)?;
    Ok(OwnSinks { replies, save })
}

/// New sinks for the faulty lines of the streams, in the order of the streams: one for each of them,
/// or none. The sinks of the replies and of the saved window were opened before.
pub fn open_fault_sinks<F: Files>(
    alloc: Global,
    files: &mut F,
    chosen: &Settings,
) -> Result<Vec<F::Sink>, Refusal<F::Source>>
    requires { AreSettings chosen.now }
    ensures sinks { IfOk result (λ sinks.
        AreFaultSinks F.Sink.written F.Sink.faults chosen.now sinks.items) }
    ensures refused { IfErr result (IsRefusalOfFaults chosen.now) }
    ensures files { (first : F) → UsesMore F.holds F.opened F.made F.unread F.unmade chosen.now
        (file_names chosen.now) [] (own_sink_names chosen.now) None first files.old
        → UsesMore F.holds F.opened F.made F.unread F.unmade chosen.now
        (file_names chosen.now) [] (sinks_with_faults chosen.now) (fault_of result) first files.new }
{
    let Ok(mut sinks) = Vec::with_capacity(alloc, chosen.faults().len()) else {
        return Err(without_source(StartFault::Memory));
    };
    for (place, name) in chosen.faults().iter().enumerate() {
        let sink = open_sink(files, name, Which::FaultsOf(place as u32 + 1))?;
        let Ok(()) = sinks.push(sink) else {
            return Err(without_source(StartFault::Memory));
        };
    }
    Ok(sinks)
}

/// A new sink for the file of this name, where there is one.
fn open_optional_sink<F: Files>(
    files: &mut F,
    name: Option<&FileWord>,
    which: Which,
) -> Result<Option<F::Sink>, Refusal<F::Source>>
    ensures wanted { IfOk result (λ sink. is_some sink ≡ is_some name.entry) }
    ensures unwritten { IfOk result (λ sink.
        IfSome sink (IsNewSink F.Sink.written F.Sink.faults)) }
    ensures cause { IfErr result (IsRefusalOfOpening which) }
    ensures named { IfErr result (λ refusal. IsSome name.entry) }
    ensures files { OpensSink F.holds F.opened F.made F.unread F.unmade which
        (option_copied name.entry) (fault_of result) files.old files.new }
{
    let Some(name) = name else {
        return Ok(None);
    };
    Ok(Some(open_sink(files, name, which)?))
}

/// A new sink for the file of this name, which is written as this one.
pub fn open_sink<F: Files>(
    files: &mut F,
    name: &FileWord,
    which: Which,
) -> Result<F::Sink, Refusal<F::Source>>
    ensures unwritten { IfOk result (IsNewSink F.Sink.written F.Sink.faults) }
    ensures cause { IfErr result (IsRefusalOfOpening which) }
    ensures files { OpensSink F.holds F.opened F.made F.unread F.unmade which
        (Some name.now) (fault_of result) files.old files.new }
{
    match files.sink(name.as_str()) {
        Ok(sink) => Ok(sink),
        Err(OpenFault::Failed) => Err(without_source(StartFault::Open(which))),
        Err(OpenFault::Memory) => Err(without_source(StartFault::Memory)),
    }
}
