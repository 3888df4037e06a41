//! The names of streams.

ghost use Rattle.std.specs.Prelude.{◌≡◌};
ghost use Rattle.clap.specs.Walk.{is_empty};
ghost use Rattle.rpq_words.specs.Settings.{names_from, only_name};

use crate::file_word::FileWord;
use std::marker::Model;

/// The most streams that one run reads.
const MAX_STREAMS: usize = 64;

/// The files of some streams, in their order. Contracts see them as the list of their names.
#[derive(Debug, Drop)]
pub struct StreamNames {
    names: Vec<FileWord>,
}

impl Model for StreamNames {
    ghost use Rattle.std.specs.Prelude.{List, ℕ};

    ghost Value = { List (List ℕ) };

    ghost view = { λ streams. streams.names.items };
}

impl StreamNames {
    /// The streams of these files.
    pub(crate) fn new(names: Vec<FileWord>) -> StreamNames
        ensures { result ≡ names.items }
    {
        StreamNames { names }
    }

    /// The files.
    pub fn as_slice(&self) -> &[FileWord]
        ensures { result.now ≡ self.now }
    {
        self.names.as_slice()
    }

    /// Whether there is none.
    pub(crate) fn is_empty(&self) -> bool
        ensures { result ≡ is_empty self.now }
    {
        self.names.is_empty()
    }

    /// The streams, if there are 1 to 64 of them.
    #[tactic(auto, unfolding(crate::specs::Settings::names_from))]
    pub(crate) fn within_limits(self) -> Option<StreamNames>
        ensures { result ≡ names_from self }
    {
        if self.names.is_empty() || self.names.len() > MAX_STREAMS {
            return None;
        }
        Some(self)
    }

    /// The file of the one stream, if there is exactly one.
    pub(crate) fn only(self) -> Option<FileWord>
        ensures { result ≡ only_name self }
    {
        let mut names = self.names;
        if names.len() != 1 {
            return None;
        }
        names.pop()
    }
}
