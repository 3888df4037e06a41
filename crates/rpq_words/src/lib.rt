//! The words of a command line and the settings that they are.
//!
//! The command is `rpq [--workers N] [--history N] [--asks FILE --replies FILE] [--check]
//! [--generate N] [--two-way] [--paths] [--joins FILE] [--save FILE] [--from FILE] [--endless]
//! [--reader ASKS REPLIES]... [--faults FILE]... QUERIES [STREAM...]`, read by `clap` as one simple
//! command. The contract for the layer above: [`read_words`] answers the settings of the words, as
//! `specs/Settings` defines them by clap's own definition of such a command and the table of the
//! ranges, or that the words have none, unless memory runs out. What can't stand together can't be
//! said by a [`Settings`], but for files of faulty lines that aren't as many as the streams.
//!
//! A word that names a file is copied once; the rest of the cost is clap's. The laws say that what
//! was found has settings exactly where it doesn't clash (`specs/Clash`), and that these say all of
//! it, and give some command lines with their settings.
#![tactic(auto)]

mod command;
mod fault;
mod fault_names;
mod file_word;
mod laws;
mod matches;
mod numbers;
mod parsed_words;
mod read;
mod reader_names;
mod settings;
mod stream_names;
mod usage;

pub use fault::WordsFault;
pub use fault_names::FaultNames;
pub use file_word::FileWord;
pub use laws::{settings_are_found, settings_examples, words_are_settings};
pub use read::read_words;
pub use reader_names::{ReaderFiles, ReaderNames};
pub use settings::{
    AskFiles, Directions, ENDLESS_CAP, Extent, ForwardSettings, Input, ModeRef, OutputKind,
    RunMode, Settings, StreamSettings, TwoWaySettings,
};
pub use stream_names::StreamNames;
pub use usage::usage_line;
