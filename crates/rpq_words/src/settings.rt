//! The settings of a run.

ghost use Rattle.std.specs.Prelude.{◌≡◌, option_copied};
ghost use Rattle.rpq_words.specs.declared.settings.RunMode.{RunMode};
ghost use Rattle.rpq_words.specs.Views.{asks_of, cap_of, faults_in, faults_of, forwards_in};
ghost use Rattle.rpq_words.specs.Views.{forwards_of, from_of, is_both_ways, is_endless, joins_of};
ghost use Rattle.rpq_words.specs.Views.{mode_of, mode_told, paths_of, readers_of};
ghost use Rattle.rpq_words.specs.Views.{replies_of, save_of, two_way_in, two_way_of};

use crate::fault_names::FaultNames;
use crate::file_word::FileWord;
use crate::reader_names::{ReaderFiles, ReaderNames};
use crate::stream_names::StreamNames;
use rpq_base::Workers;

/// How many tuples a history holds at most where the words don't say it.
const USUAL_CAP: u64 = 1_000_000;

/// How many tuples an endless run would take.
pub const ENDLESS_CAP: u64 = 1 << 61;

/// The settings of a run.
#[derive(Debug, Drop)]
pub struct Settings {
    /// The file of the queries.
    pub queries: FileWord,
    /// How many workers keep the answers up to date.
    pub workers: Workers,
    /// What is done with the queries, and for how long.
    pub extent: Extent,
}

/// What is done with the queries, and for how long.
#[derive(Debug, Drop)]
pub enum Extent {
    /// What the mode says. The history holds so many tuples at most, or 1,000,000 where the words
    /// don't say it.
    Capped { history: Option<u64>, mode: RunMode },
    /// They are evaluated over streams, as long as these go on.
    Endless(StreamSettings),
}

/// What is done with the queries.
#[derive(Debug, Drop)]
pub enum RunMode {
    /// They are checked, and nothing is run.
    Check(Directions),
    /// They are evaluated over this many generated tuples.
    Generate(Directions, u64),
    /// They are evaluated over streams.
    Streams(StreamSettings),
}

/// How the expressions of the queries may take edges.
#[derive(Clone, Copy, Debug, PartialEq, Eq)]
pub enum Directions {
    /// Forwards alone.
    Forwards,
    /// Backwards, too.
    BothWays,
}

/// The settings of a run over streams.
#[derive(Debug, Drop)]
pub enum StreamSettings {
    /// Edges may be taken backwards.
    BothWays(TwoWaySettings),
    /// Edges are taken forwards alone.
    Forwards(ForwardSettings),
}

/// The settings of a run over streams that may take edges backwards.
#[derive(Debug, Drop)]
pub struct TwoWaySettings {
    /// The streams that are read.
    pub streams: StreamNames,
    /// The files that their faulty lines are told on, if they are.
    pub faults: FaultNames,
}

/// The settings of a run over streams that takes edges forwards alone.
#[derive(Debug, Drop)]
pub struct ForwardSettings {
    /// What is read.
    pub input: Input,
    /// What is told beside the pairs.
    pub shown: OutputKind,
    /// The files of the asks and the replies, if readers ask.
    pub asked: Option<AskFiles>,
    /// The files of the readers beside the run, of which there are at most 64.
    pub readers: ReaderNames,
    /// The file that gets what a later run needs, if there is one.
    pub save: Option<FileWord>,
    /// The files that faulty lines of the streams are told on, if they are.
    pub faults: FaultNames,
}

/// What a run over streams reads.
#[derive(Debug, Drop)]
pub enum Input {
    /// These streams.
    Fresh(StreamNames),
    /// What an earlier run saved in one file, and then one stream.
    Resumed { from: FileWord, stream: FileWord },
}

/// What is told beside the pairs that are gained and lost.
#[derive(Debug, Drop)]
pub enum OutputKind {
    /// Nothing.
    Pairs,
    /// Behind each gained pair a path that shows it.
    Paths,
    /// The bindings of the joins in this file.
    Bindings(FileWord),
}

/// The files of the asks and of the replies to them.
#[derive(Debug, Drop)]
pub struct AskFiles {
    pub asks: FileWord,
    pub replies: FileWord,
}

/// What is done with the queries, as the settings of a run with a cap and of one without tell it
/// alike.
#[derive(Clone, Copy, Debug)]
pub enum ModeRef<'a> {
    /// They are checked, and nothing is run.
    Check(Directions),
    /// They are evaluated over this many generated tuples.
    Generate(Directions, u64),
    /// They are evaluated over streams.
    Streams(&'a StreamSettings),
}

impl Directions {
    /// Whether edges may be taken backwards.
    pub fn is_both_ways(self) -> bool
        ensures { result ≡ is_both_ways self }
    {
        match self {
            Directions::Forwards => false,
            Directions::BothWays => true,
        }
    }
}

impl RunMode {
    /// Whether edges may be taken backwards.
    fn is_two_way(&self) -> bool
        ensures { result ≡ two_way_in self.now }
    {
        match self {
            RunMode::Check(directions) => directions.is_both_ways(),
            RunMode::Generate(directions, _count) => directions.is_both_ways(),
            RunMode::Streams(run) => run.is_two_way(),
        }
    }
}

impl StreamSettings {
    /// Whether edges may be taken backwards.
    fn is_two_way(&self) -> bool
        ensures { result ≡ two_way_in (RunMode.Streams self.now) }
    {
        match self {
            StreamSettings::BothWays(_run) => true,
            StreamSettings::Forwards(_run) => false,
        }
    }

    /// The settings of one that takes edges forwards alone, if it is one.
    fn forwards(&self) -> Option<&ForwardSettings>
        ensures { option_copied result ≡ forwards_in (RunMode.Streams self.now) }
    {
        match self {
            StreamSettings::Forwards(run) => Some(run),
            StreamSettings::BothWays(_run) => None,
        }
    }

    /// The files that faulty lines of the streams are told on.
    fn faults(&self) -> &[FileWord]
        ensures { result.now ≡ faults_in (RunMode.Streams self.now) }
    {
        match self {
            StreamSettings::BothWays(run) => run.faults.as_slice(),
            StreamSettings::Forwards(run) => run.faults.as_slice(),
        }
    }
}

impl Settings {
    /// What is done with the queries.
    pub fn mode(&self) -> ModeRef<'_>
        ensures { mode_told result ≡ mode_of self.now }
    {
        match &self.extent {
            Extent::Capped {
                history: _history,
                mode: RunMode::Check(directions),
            } => ModeRef::Check(*directions),
            Extent::Capped {
                history: _history,
                mode: RunMode::Generate(directions, count),
            } => ModeRef::Generate(*directions, *count),
            Extent::Capped {
                history: _history,
                mode: RunMode::Streams(run),
            } => ModeRef::Streams(run),
            Extent::Endless(run) => ModeRef::Streams(run),
        }
    }

    /// Whether the run goes on as long as its streams do.
    pub fn is_endless(&self) -> bool
        ensures { result ≡ is_endless self.now }
    {
        match &self.extent {
            Extent::Capped {
                history: _history,
                mode: _mode,
            } => false,
            Extent::Endless(_run) => true,
        }
    }

    /// How many tuples the history holds at most. An endless run would take 2^61.
    pub fn history_cap(&self) -> u64
        ensures { result ≡ cap_of self.now }
    {
        match &self.extent {
            Extent::Capped {
                history: Some(most),
                mode: _mode,
            } => *most,
            Extent::Capped {
                history: None,
                mode: _mode,
            } => USUAL_CAP,
            Extent::Endless(_run) => ENDLESS_CAP,
        }
    }

    /// Whether edges may be taken backwards.
    pub fn is_two_way(&self) -> bool
        ensures { result ≡ two_way_of self.now }
    {
        match &self.extent {
            Extent::Capped {
                history: _history,
                mode,
            } => mode.is_two_way(),
            Extent::Endless(run) => run.is_two_way(),
        }
    }

    /// The settings of a run over streams that takes edges forwards alone, if it is one.
    pub fn forwards(&self) -> Option<&ForwardSettings>
        ensures { option_copied result ≡ forwards_of self.now }
    {
        match &self.extent {
            Extent::Capped {
                history: _history,
                mode: RunMode::Streams(run),
            } => run.forwards(),
            Extent::Capped {
                history: _history,
                mode: RunMode::Check(_) | RunMode::Generate(_, _),
            } => None,
            Extent::Endless(run) => run.forwards(),
        }
    }

    /// Whether a path is told behind each gained pair.
    pub fn has_paths(&self) -> bool
        ensures { result ≡ paths_of self.now }
    {
        match self.forwards() {
            Some(run) => matches!(run.shown, OutputKind::Paths),
            None => false,
        }
    }

    /// The file of the joins over the queries, if there is one.
    pub fn joins(&self) -> Option<&FileWord>
        ensures { option_copied result ≡ joins_of self.now }
    {
        match &self.forwards()?.shown {
            OutputKind::Bindings(joins) => Some(joins),
            OutputKind::Pairs | OutputKind::Paths => None,
        }
    }

    /// The file of the asks, if there is one.
    pub fn asks(&self) -> Option<&FileWord>
        ensures { option_copied result ≡ asks_of self.now }
    {
        match &self.forwards()?.asked {
            Some(files) => Some(&files.asks),
            None => None,
        }
    }

    /// The file that the replies are written to, if there is one.
    pub fn replies(&self) -> Option<&FileWord>
        ensures { option_copied result ≡ replies_of self.now }
    {
        match &self.forwards()?.asked {
            Some(files) => Some(&files.replies),
            None => None,
        }
    }

    /// The files of the readers beside the run.
    pub fn readers(&self) -> &[ReaderFiles]
        ensures { result.now ≡ readers_of self.now }
    {
        match self.forwards() {
            Some(run) => run.readers.as_slice(),
            None => &[],
        }
    }

    /// The files that faulty lines of the streams are told on, in the order of the streams: one for
    /// each of them, or none.
    pub fn faults(&self) -> &[FileWord]
        ensures { result.now ≡ faults_of self.now }
    {
        match &self.extent {
            Extent::Capped {
                history: _history,
                mode: RunMode::Streams(run),
            } => run.faults(),
            Extent::Capped {
                history: _history,
                mode: RunMode::Check(_) | RunMode::Generate(_, _),
            } => &[],
            Extent::Endless(run) => run.faults(),
        }
    }

    /// The file that gets what a later run needs, if there is one.
    pub fn save(&self) -> Option<&FileWord>
        ensures { option_copied result ≡ save_of self.now }
    {
        self.forwards()?.save.as_ref()
    }

    /// The file of what an earlier run saved, if there is one.
    pub fn from(&self) -> Option<&FileWord>
        ensures { option_copied result ≡ from_of self.now }
    {
        match &self.forwards()?.input {
            Input::Resumed {
                from,
                stream: _stream,
            } => Some(from),
            Input::Fresh(_names) => None,
        }
    }
}
