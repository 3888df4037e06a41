//! The files of the readers beside a run are opened: what they ask behind the streams, and their
//! replies behind all other sinks.

ghost use Rattle.std.specs.Prelude.{◌≡◌, [], None, length, map, All, IfOk, IfErr};
ghost use Rattle.live_asks.specs.Readers.{IsNewAskReader};
ghost use Rattle.rpq_words.specs.Modes.{AreSettings};
ghost use Rattle.rpq_words.specs.Views.{readers_of};
ghost use Rattle.run_start.specs.Files.{AreUnderstoodFiles};
ghost use Rattle.run_start.specs.Given.{asks_names, file_names, names_with_streams, sink_names};
ghost use Rattle.run_start.specs.Given.{sinks_with_faults};
ghost use Rattle.run_start.specs.Ready.{fault_of};
ghost use Rattle.run_start.specs.Steps.{IsRefusal, IsRefusalOfReplies, IsUnread, UsesMore};

use crate::refusal::{Refusal, without_source};
use crate::sinks::open_sink;
use crate::streams::open_file;
use live_asks::{AskReader, new_ask_reader};
use rpq_io::{Files, Sink, Source};
use rpq_text::{StartFault, Which};
use rpq_words::Settings;
use std::alloc::Global;

/// The sources of what the readers beside the run ask, in their order, of which nothing was read.
pub fn open_asks<F: Files>(
    alloc: Global,
    files: &mut F,
    chosen: &Settings,
) -> Result<Vec<F::Source>, Refusal<F::Source>>
    requires settings { AreSettings chosen.now }
    requires understood { AreUnderstoodFiles chosen.now (F.holds files.old) }
    ensures contents { IfOk result (λ sources.
        map (F.holds files.old) (asks_names chosen.now) ≡ map F.Source.left sources.items) }
    ensures unread { IfOk result (λ sources.
        All (IsUnread F.Source.has_told_end F.Source.faults) sources.items) }
    ensures refused { IfErr result
        (IsRefusal F.Source.left F.Source.faults chosen.now (F.holds files.old)) }
    ensures files { UsesMore F.holds F.opened F.made F.unread F.unmade chosen.now
        (names_with_streams chosen.now) (asks_names chosen.now) [] (fault_of result)
        files.old files.new }
{
    let Ok(mut sources) = Vec::with_capacity(alloc, chosen.readers().len()) else {
        return Err(without_source(StartFault::Memory));
    };
    for (place, names) in chosen.readers().iter().enumerate() {
        let source = open_file(files, names.asks.as_str(), Which::AsksOf(place as u32 + 1))?;
        let Ok(()) = sources.push(source) else {
            return Err(without_source(StartFault::Memory));
        };
    }
    Ok(sources)
}

/// The readers beside the run over these sources of what they ask, each with a new sink for its
/// replies. The sinks of the run's own replies, of its saved window and of the streams' faulty lines
/// were opened before.
pub fn open_ask_readers<F: Files>(
    alloc: Global,
    files: &mut F,
    chosen: &Settings,
    sources: Vec<F::Source>,
) -> Result<Vec<AskReader<F::Source, F::Sink>>, Refusal<F::Source>>
    requires settings { AreSettings chosen.now }
    requires unread { All (IsUnread F.Source.has_told_end F.Source.faults) sources.items }
    requires all { length sources.items ≡ length (readers_of chosen.now) }
    ensures sources { IfOk result (λ readers.
        map (λ one. one.reader.source) readers.items ≡ sources.items) }
    ensures new { IfOk result (λ readers. All (IsNewAskReader F.Source.left F.Source.faults
        F.Sink.written F.Sink.faults) readers.items) }
    ensures refused { IfErr result (IsRefusalOfReplies chosen.now) }
    ensures files { (first : F) → UsesMore F.holds F.opened F.made F.unread F.unmade chosen.now
        (file_names chosen.now) [] (sinks_with_faults chosen.now) None first files.old
        → UsesMore F.holds F.opened F.made F.unread F.unmade chosen.now
        (file_names chosen.now) [] (sink_names chosen.now) (fault_of result) first files.new }
{
    let Ok(mut readers) = Vec::with_capacity(alloc, sources.len()) else {
        return Err(without_source(StartFault::Memory));
    };
    for source in sources {
        let place = readers.len();
        let name = &chosen.readers()[place].replies;
        let replies = open_sink(files, name, Which::RepliesOf(place as u32 + 1))?;
        let Ok(reader) = new_ask_reader(alloc, source, replies) else {
            return Err(without_source(StartFault::Memory));
        };
        let Ok(()) = readers.push(reader) else {
            return Err(without_source(StartFault::Memory));
        };
    }
    Ok(readers)
}
