//! The files of faulty lines.

ghost use Rattle.std.specs.Prelude.{◌≡◌};
ghost use Rattle.clap.specs.Walk.{is_empty};
ghost use Rattle.rpq_words.specs.Settings.{faults_from};

use crate::file_word::FileWord;
use crate::stream_names::StreamNames;
use std::marker::Model;

/// The files that the faulty lines of some streams are told on, in the order of the streams: one for
/// each of them, or none. Contracts see them as the list of their names.
#[derive(Debug, Drop)]
pub struct FaultNames {
    names: Vec<FileWord>,
}

impl Model for FaultNames {
    ghost use Rattle.std.specs.Prelude.{List, ℕ};

    ghost Value = { List (List ℕ) };

    ghost view = { λ faults. faults.names.items };
}

impl FaultNames {
    /// These files.
    pub(crate) fn new(names: Vec<FileWord>) -> FaultNames
        ensures { result ≡ names.items }
    {
        FaultNames { names }
    }

    /// The files.
    pub fn as_slice(&self) -> &[FileWord]
        ensures { result.now ≡ self.now }
    {
        self.names.as_slice()
    }

    /// Whether there is none.
    pub(crate) fn is_empty(&self) -> bool
        ensures { result ≡ is_empty self.now }
    {
        self.names.is_empty()
    }

    /// The files, if there is none or one for each of these streams.
    #[tactic(auto, unfolding(crate::specs::Settings::faults_from))]
    pub(crate) fn for_streams(self, streams: &StreamNames) -> Option<FaultNames>
        ensures { result ≡ faults_from self streams.now }
    {
        if self.names.is_empty() || self.names.len() == streams.as_slice().len() {
            return Some(self);
        }
        None
    }
}
