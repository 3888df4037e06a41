//! What was found in the words, and whether it can stand together.

ghost use Rattle.std.specs.Prelude.{◌≡◌};
ghost use Rattle.rpq_words.specs.Clash.{names_file};
ghost use Rattle.rpq_words.specs.Settings.{asked_from, directions_from, extent_from};
ghost use Rattle.rpq_words.specs.Settings.{forwards_from};
ghost use Rattle.rpq_words.specs.Settings.{has_forward_words, has_stream_words, input_from};
ghost use Rattle.rpq_words.specs.Settings.{mode_from, saves_over, settings_from, shown_from};
ghost use Rattle.rpq_words.specs.Settings.{streams_from};

use crate::fault_names::FaultNames;
use crate::file_word::FileWord;
use crate::reader_names::ReaderNames;
use crate::settings::{
    AskFiles, Directions, Extent, ForwardSettings, Input, OutputKind, RunMode, Settings,
    StreamSettings, TwoWaySettings,
};
use crate::stream_names::StreamNames;
use rpq_base::Workers;

/// What was found in the words, each number in its range.
#[derive(Debug, Drop)]
pub struct ParsedWords {
    pub workers: Workers,
    pub history: Option<u64>,
    pub check: bool,
    pub generate: Option<u64>,
    pub two_way: bool,
    pub endless: bool,
    pub queries: FileWord,
    pub words: StreamWords,
}

/// What was found that only a run over streams has.
#[derive(Debug, Drop)]
pub struct StreamWords {
    pub paths: bool,
    pub joins: Option<FileWord>,
    pub asks: Option<FileWord>,
    pub replies: Option<FileWord>,
    pub save: Option<FileWord>,
    pub from: Option<FileWord>,
    pub readers: ReaderNames,
    pub faults: FaultNames,
    pub streams: StreamNames,
}

impl ParsedWords {
    /// The settings, if all that was found can stand together.
    #[tactic(auto, unfolding(crate::specs::Settings::settings_from))]
    pub(crate) fn into_settings(self) -> Option<Settings>
        ensures { result ≡ settings_from self }
    {
        let ParsedWords {
            workers,
            history,
            check,
            generate,
            two_way,
            endless,
            queries,
            words,
        } = self;
        let mode = mode_of(check, generate, two_way, words)?;
        let extent = extent_of(endless, history, mode)?;
        Some(Settings {
            queries,
            workers,
            extent,
        })
    }
}

/// What is done and for how long, if this can stand together.
fn extent_of(endless: bool, history: Option<u64>, mode: RunMode) -> Option<Extent>
    ensures { result ≡ extent_from endless history mode }
{
    match (endless, history, mode) {
        (false, history, mode) => Some(Extent::Capped { history, mode }),
        (true, None, RunMode::Streams(run)) => Some(Extent::Endless(run)),
        (true, None, RunMode::Check(_directions)) => None,
        (true, None, RunMode::Generate(_directions, _count)) => None,
        (true, Some(_most), _mode) => None,
    }
}

/// The mode, if these words can stand together.
#[tactic(auto, unfolding(crate::specs::Settings::mode_from))]
fn mode_of(check: bool, generate: Option<u64>, two_way: bool, words: StreamWords) -> Option<RunMode>
    ensures { result ≡ mode_from check generate two_way words }
{
    match (check, generate) {
        (true, Some(_count)) => None,
        (true, None) => {
            if words.has_stream_words() {
                return None;
            }
            Some(RunMode::Check(directions_of(two_way)))
        }
        (false, Some(count)) => {
            if words.has_stream_words() {
                return None;
            }
            Some(RunMode::Generate(directions_of(two_way), count))
        }
        (false, None) => Some(RunMode::Streams(streams_of(two_way, words)?)),
    }
}

/// How edges may be taken.
fn directions_of(two_way: bool) -> Directions
    ensures { result ≡ directions_from two_way }
{
    if two_way {
        Directions::BothWays
    } else {
        Directions::Forwards
    }
}

/// The settings of a run over streams, if these words can stand together.
#[tactic(auto, unfolding(crate::specs::Settings::streams_from))]
fn streams_of(two_way: bool, words: StreamWords) -> Option<StreamSettings>
    ensures { result ≡ streams_from two_way words }
{
    if !two_way {
        return Some(StreamSettings::Forwards(forwards_of(words)?));
    }
    if words.has_forward_words() {
        return None;
    }
    let StreamWords {
        faults,
        streams,
        ..
    } = words;
    let faults = faults.for_streams(&streams)?;
    let streams = streams.within_limits()?;
    Some(StreamSettings::BothWays(TwoWaySettings { streams, faults }))
}

/// The settings of a run over streams that takes edges forwards alone, if these words can stand
/// together.
#[tactic(auto, unfolding(crate::specs::Settings::forwards_from))]
fn forwards_of(words: StreamWords) -> Option<ForwardSettings>
    ensures { result ≡ forwards_from words }
{
    let StreamWords {
        paths,
        joins,
        asks,
        replies,
        save,
        from,
        readers,
        faults,
        streams,
    } = words;
    let asked = asked_of(asks, replies)?;
    let shown = shown_of(paths, joins)?;
    let readers = readers.within_limits()?;
    let faults = faults.for_streams(&streams)?;
    let input = input_of(from, streams)?;
    if saves_over(&save, &input) {
        return None;
    }
    Some(ForwardSettings {
        input,
        shown,
        asked,
        readers,
        save,
        faults,
    })
}

/// What is read, by the file to begin with, if there is one, and the streams.
#[tactic(auto, unfolding(crate::specs::Settings::input_from))]
fn input_of(from: Option<FileWord>, streams: StreamNames) -> Option<Input>
    ensures { result ≡ input_from from streams }
{
    match from {
        Some(from) => {
            let stream = streams.only()?;
            Some(Input::Resumed { from, stream })
        }
        None => Some(Input::Fresh(streams.within_limits()?)),
    }
}

/// What is told beside the pairs: not paths and bindings at once.
#[tactic(auto, unfolding(crate::specs::Settings::shown_from))]
fn shown_of(paths: bool, joins: Option<FileWord>) -> Option<OutputKind>
    ensures { result ≡ shown_from paths joins }
{
    match (paths, joins) {
        (false, None) => Some(OutputKind::Pairs),
        (false, Some(joins)) => Some(OutputKind::Bindings(joins)),
        (true, None) => Some(OutputKind::Paths),
        (true, Some(_joins)) => None,
    }
}

/// The files of asks and replies: both or none.
#[tactic(auto, unfolding(crate::specs::Settings::asked_from))]
fn asked_of(asks: Option<FileWord>, replies: Option<FileWord>) -> Option<Option<AskFiles>>
    ensures { result ≡ asked_from asks replies }
{
    match (asks, replies) {
        (None, None) => Some(None),
        (Some(asks), Some(replies)) => Some(Some(AskFiles { asks, replies })),
        (None, Some(_replies)) => None,
        (Some(_asks), None) => None,
    }
}

impl StreamWords {
    /// Whether something stands there that only a run over streams has.
    fn has_stream_words(&self) -> bool
        ensures { result ≡ has_stream_words self.now }
    {
        self.has_forward_words() || !self.streams.is_empty() || !self.faults.is_empty()
    }

    /// Whether something stands there that only a run over streams has that takes edges forwards
    /// alone.
    fn has_forward_words(&self) -> bool
        ensures { result ≡ has_forward_words self.now }
    {
        self.replies.is_some() || self.names_file() || self.paths
    }

    /// Whether a file is named that is read or written beside the streams and the replies.
    fn names_file(&self) -> bool
        ensures { result ≡ names_file self.now }
    {
        self.asks.is_some()
            || self.joins.is_some()
            || self.save.is_some()
            || self.from.is_some()
            || !self.readers.is_empty()
    }
}

/// Whether the file to save to is the one that a run begins with. Opening it to write would empty it
/// before it is read.
fn saves_over(save: &Option<FileWord>, input: &Input) -> bool
    ensures { result ≡ saves_over save.now input.now }
{
    match (save, input) {
        (
            Some(save),
            Input::Resumed {
                from,
                stream: _stream,
            },
        ) => save.as_str() == from.as_str(),
        (Some(_save), Input::Fresh(_streams)) => false,
        (None, _) => false,
    }
}
