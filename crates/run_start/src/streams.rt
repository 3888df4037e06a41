//! The streams are opened, and the saved window before them.

ghost use Rattle.std.specs.Prelude.{◌≡◌, ◌≤◌, ◌∷◌, ◌++◌, [], false, length, map, is_some};
ghost use Rattle.std.specs.Prelude.{Some, option_to_list, IfOk, IfErr, IfSome};
ghost use Rattle.rpq_io.specs.Files.{IsNewSource};
ghost use Rattle.rpq_words.specs.Modes.{AreSettings};
ghost use Rattle.rpq_words.specs.declared.settings.RunMode.{RunMode};
ghost use Rattle.rpq_words.specs.Views.{cap_of, from_of, mode_of, streams_of};
ghost use Rattle.saved_window.specs.Then.{count_of, left_of_both, left_of_first, faults_of_both};
ghost use Rattle.saved_window.specs.Then.{faults_of_first, join_known};
ghost use Rattle.stream_tuples.specs.Limits.{byte_limit_of, endless_byte_limit};
ghost use Rattle.stream_tuples.specs.Progress.{IsNewReader};
ghost use Rattle.run_start.specs.Files.{AreUnderstoodFiles, stream_contents};
ghost use Rattle.run_start.specs.Given.{first_names, whole_names};
ghost use Rattle.run_start.specs.Readers.{AreNew, AreNewReaders, contents_of, is_behind, lefts_of};
ghost use Rattle.run_start.specs.Ready.{fault_of};
ghost use Rattle.run_start.specs.Steps.{IsRefusal, IsRefusalOfOpening, OpensFile, UsesMore};

use crate::refusal::{Refusal, without_source};
use rpq_base::Memory;
use rpq_io::{Files, LineReader, OpenFault, Source};
use rpq_text::{StartFault, Which};
use rpq_words::{FileWord, Input, Settings, StreamNames, StreamSettings};
use saved_window::{NoPrefix, OnePrefix, Prefix, Then};
use std::alloc::Global;
use stream_tuples::{BYTE_LIMIT, ENDLESS_BYTE_LIMIT, LINE_LIMIT};

/// The lines of each stream, in order.
#[derive(Drop)]
pub enum Readers<S: Source> {
    /// Each stream is what its file holds.
    Alone(Vec<LineReader<Then<S, NoPrefix>>>),
    /// The one stream is what a saved window holds, and then what its file does.
    Behind(Vec<LineReader<Then<S, OnePrefix>>>),
}

/// Readers of the lines of all streams, in order, which have read nothing yet. Where a saved window
/// is named, it is opened before the one stream and read before it.
pub fn open_readers<F: Files>(
    alloc: Global,
    files: &mut F,
    chosen: &Settings,
    run: &StreamSettings,
) -> Result<Readers<F::Source>, Refusal<F::Source>>
    requires settings { AreSettings chosen.now }
    requires streams { mode_of chosen.now ≡ RunMode.Streams run.now }
    requires understood { AreUnderstoodFiles chosen.now (F.holds files.old) }
    ensures contents { IfOk result (λ readers.
        stream_contents chosen.now (F.holds files.old) ≡ contents_of F.Source.left readers) }
    ensures behind { IfOk result (λ readers. is_behind readers ≡ is_some (from_of chosen.now)) }
    ensures fresh { IfOk result (AreNew (cap_of chosen.now) F.Source.left F.Source.faults) }
    ensures refused { IfErr result
        (IsRefusal F.Source.left F.Source.faults chosen.now (F.holds files.old)) }
    ensures files { UsesMore F.holds F.opened F.made F.unread F.unmade chosen.now
        (whole_names chosen.now) (option_to_list (from_of chosen.now) ++ streams_of chosen.now) []
        (fault_of result) files.old files.new }
{
    let run = match run {
        StreamSettings::BothWays(run) => {
            let names = &run.streams;
            return Ok(Readers::Alone(open_streams(alloc, files, chosen, names)?));
        }
        StreamSettings::Forwards(run) => run,
    };
    match &run.input {
        Input::Fresh(names) => Ok(Readers::Alone(open_streams(alloc, files, chosen, names)?)),
        Input::Resumed { from, stream } => Ok(Readers::Behind(open_behind(
            alloc, files, chosen, from, stream,
        )?)),
    }
}

/// Readers of the lines of all streams, which have these names and read nothing before them.
fn open_streams<F: Files>(
    alloc: Global,
    files: &mut F,
    chosen: &Settings,
    names: &StreamNames,
) -> Result<Vec<LineReader<Then<F::Source, NoPrefix>>>, Refusal<F::Source>>
    requires settings { AreSettings chosen.now }
    requires named { streams_of chosen.now ≡ names.now }
    requires few { length names.now ≤ 64 }
    requires understood { AreUnderstoodFiles chosen.now (F.holds files.old) }
    ensures contents { IfOk result (λ readers. map (F.holds files.old) (streams_of chosen.now)
        ≡ lefts_of F.Source.left readers.items) }
    ensures fresh { IfOk result (λ readers.
        AreNewReaders (cap_of chosen.now) F.Source.left F.Source.faults readers.items) }
    ensures refused { IfErr result
        (IsRefusal F.Source.left F.Source.faults chosen.now (F.holds files.old)) }
    ensures files { UsesMore F.holds F.opened F.made F.unread F.unmade chosen.now
        (first_names chosen.now) (streams_of chosen.now) [] (fault_of result) files.old files.new }
{
    let Ok(mut readers) = Vec::with_capacity(alloc, names.as_slice().len()) else {
        return Err(without_source(StartFault::Memory));
    };
    for (place, name) in names.as_slice().iter().enumerate() {
        let reader = open_stream(alloc, files, chosen, name.as_str(), place as u32 + 1, None)?;
        let Ok(()) = readers.push(reader) else {
            return Err(without_source(StartFault::Memory));
        };
    }
    Ok(readers)
}

/// A reader of the lines of this one stream, which reads the saved window of this name before it.
fn open_behind<F: Files>(
    alloc: Global,
    files: &mut F,
    chosen: &Settings,
    name: &FileWord,
    stream: &FileWord,
) -> Result<Vec<LineReader<Then<F::Source, OnePrefix>>>, Refusal<F::Source>>
    requires settings { AreSettings chosen.now }
    requires named { from_of chosen.now ≡ Some name.now }
    requires one_stream { streams_of chosen.now ≡ stream.now ∷ [] }
    requires understood { AreUnderstoodFiles chosen.now (F.holds files.old) }
    ensures contents { IfOk result (λ readers. stream_contents chosen.now (F.holds files.old)
        ≡ lefts_of F.Source.left readers.items) }
    ensures fresh { IfOk result (λ readers.
        AreNewReaders (cap_of chosen.now) F.Source.left F.Source.faults readers.items) }
    ensures refused { IfErr result
        (IsRefusal F.Source.left F.Source.faults chosen.now (F.holds files.old)) }
    ensures files { UsesMore F.holds F.opened F.made F.unread F.unmade chosen.now
        (whole_names chosen.now) (option_to_list (from_of chosen.now) ++ streams_of chosen.now) []
        (fault_of result) files.old files.new }
{
    let Ok(mut readers) = Vec::with_capacity(alloc, 1) else {
        return Err(without_source(StartFault::Memory));
    };
    let from = open_file(files, name.as_str(), Which::From)?;
    readers.push_reserved(open_stream(alloc, files, chosen, stream.as_str(), 1, Some(from))?);
    Ok(readers)
}

/// A reader of the lines of the stream with this name and number, which has read nothing yet and
/// reads the first source, if there is one, before the file.
fn open_stream<F: Files, P: Prefix>(
    alloc: Global,
    files: &mut F,
    chosen: &Settings,
    name: &str,
    number: u32,
    first: Option<F::Source>,
) -> Result<LineReader<Then<F::Source, P>>, Refusal<F::Source>>
    requires settings { AreSettings chosen.now }
    requires there { count_of first ≡ P.COUNT }
    requires untold { IfSome first (λ source. F.Source.has_told_end source ≡ false) }
    requires no_fault { faults_of_first F.Source.faults first ≡ 0 }
    ensures content { IfOk result (λ reader. left_of_both F.Source.left reader.source
        ≡ join_known (left_of_first F.Source.left first) (F.holds files.old name.now)) }
    ensures fresh { IfOk result (IsNewReader (cap_of chosen.now) (left_of_both F.Source.left)
        (faults_of_both F.Source.faults)) }
    ensures cause { IfErr result (IsRefusalOfOpening (Which.Stream number)) }
    ensures files { OpensFile F.holds F.opened F.made F.unread F.unmade (Which.Stream number)
        name.now (fault_of result) files.old files.new }
{
    let source = open_file(files, name, Which::Stream(number))?;
    let both = Then::new(first, source);
    match LineReader::new(alloc, both, LINE_LIMIT, byte_limit(chosen)) {
        Ok(reader) => Ok(reader),
        Err((_source, Memory)) => Err(without_source(StartFault::Memory)),
    }
}

/// A stream of a run with these settings has fewer bytes than this.
fn byte_limit(chosen: &Settings) -> u64
    requires { AreSettings chosen.now }
    ensures limit { result ≡ byte_limit_of (cap_of chosen.now) }
    ensures some { 1 ≤ result }
    ensures most { result ≤ endless_byte_limit }
{
    if chosen.is_endless() {
        ENDLESS_BYTE_LIMIT
    } else {
        BYTE_LIMIT
    }
}

/// A new source of the file of this name, which is read as this one.
pub fn open_file<F: Files>(
    files: &mut F,
    name: &str,
    which: Which,
) -> Result<F::Source, Refusal<F::Source>>
    ensures new { IfOk result (IsNewSource F.Source.left F.Source.has_told_end
        F.Source.faults (F.holds files.old name.now)) }
    ensures cause { IfErr result (IsRefusalOfOpening which) }
    ensures files { OpensFile F.holds F.opened F.made F.unread F.unmade which name.now
        (fault_of result) files.old files.new }
{
    match files.source(name) {
        Ok(source) => Ok(source),
        Err(OpenFault::Failed) => Err(without_source(StartFault::Open(which))),
        Err(OpenFault::Memory) => Err(without_source(StartFault::Memory)),
    }
}
