//! The files of readers.

ghost use Rattle.std.specs.Prelude.{◌≡◌, map, Some, None, Err, IfOk};
ghost use Rattle.clap.specs.Walk.{is_empty};
ghost use Rattle.rpq_words.specs.declared.fault.WordsFault.{WordsFault};
ghost use Rattle.rpq_words.specs.Found.{paired};
ghost use Rattle.rpq_words.specs.Settings.{readers_from};

use crate::fault::WordsFault;
use crate::file_word::FileWord;
use std::alloc::{AllocError, Global};
use std::marker::Model;

/// The most readers that one run has.
const MAX_READERS: usize = 64;

/// The files of one reader: what it asks, and where its replies go.
#[derive(Debug, Drop)]
pub struct ReaderFiles {
    pub asks: FileWord,
    pub replies: FileWord,
}

impl ReaderFiles {
    /// The files of these names. The only error is out of memory.
    fn new(alloc: Global, asks: &str, replies: &str) -> Result<ReaderFiles, AllocError>
        ensures { IfOk result (λ files. files ≡ record {
          asks = asks.now;
          replies = replies.now;
        }) }
    {
        Ok(ReaderFiles {
            asks: FileWord::new(alloc, asks)?,
            replies: FileWord::new(alloc, replies)?,
        })
    }
}

/// The files of some readers, in their order. Contracts see them as their list.
#[derive(Debug, Drop)]
pub struct ReaderNames {
    readers: Vec<ReaderFiles>,
}

impl Model for ReaderNames {
    ghost use Rattle.std.specs.Prelude.{List};
    ghost use Rattle.rpq_words.specs.declared.reader_names.ReaderFiles.{ReaderFiles};

    ghost Value = { List ReaderFiles };

    ghost view = { λ names. names.readers.items };
}

impl ReaderNames {
    /// The readers of these files, two for each: that of the asks and that of the replies. The
    /// errors are that one of the two is missing, and out of memory.
    #[tactic(auto, unfolding(crate::specs::Found::paired))]
    pub(crate) fn of_pairs(alloc: Global, texts: &[&str]) -> Result<ReaderNames, WordsFault>
        ensures ok { IfOk result (λ readers.
            paired (map (λ text. text.now) texts.now) ≡ Some readers) }
        ensures refused { result ≡ Err WordsFault.Refused
            → paired (map (λ text. text.now) texts.now) ≡ None }
    {
        let mut readers = Vec::with_capacity(alloc, texts.len() / 2)?;
        let mut rest = texts;
        while let [asks, replies, more @ ..] = rest {
            let Ok(()) = readers.push(ReaderFiles::new(alloc, asks, replies)?) else {
                return Err(WordsFault::Memory);
            };
            rest = more;
        }
        if rest.is_empty() {
            Ok(ReaderNames { readers })
        } else {
            Err(WordsFault::Refused)
        }
    }

    /// The files of each reader.
    pub fn as_slice(&self) -> &[ReaderFiles]
        ensures { result.now ≡ self.now }
    {
        self.readers.as_slice()
    }

    /// Whether there is none.
    pub(crate) fn is_empty(&self) -> bool
        ensures { result ≡ is_empty self.now }
    {
        self.readers.is_empty()
    }

    /// The readers, if there are at most 64 of them.
    #[tactic(auto, unfolding(crate::specs::Settings::readers_from))]
    pub(crate) fn within_limits(self) -> Option<ReaderNames>
        ensures { result ≡ readers_from self }
    {
        if self.readers.len() > MAX_READERS {
            return None;
        }
        Some(self)
    }
}
