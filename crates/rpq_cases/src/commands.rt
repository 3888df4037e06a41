//! Words of command lines.

use case_lines::{Fields, Output, words_of};
use rpq_words::{
    FileWord, Input, ModeRef, ReaderFiles, Settings, StreamSettings, WordsFault, read_words,
};
use std::alloc::Global;

/// The settings of a command line, or why its words aren't taken.
pub fn answer_command(alloc: Global, out: &mut Output, fields: Fields) -> anyhow::Result<()> {
    let words = words_of(alloc, fields.rest())?;
    match settings_of(alloc, &words) {
        Ok(chosen) => put_settings(out, &chosen),
        Err(fault) => out.put_shown(&fault),
    }
}

/// The settings of the words. It promises nothing, since what is put is compared from outside.
fn settings_of(alloc: Global, words: &[String]) -> Result<Settings, WordsFault> {
    read_words(alloc, words)
}

fn put_settings(out: &mut Output, chosen: &Settings) -> anyhow::Result<()> {
    put_choices(out, chosen)?;
    put_files(out, chosen)?;
    out.put(" ")?;
    put_word(out, &chosen.queries)?;
    out.put(" ")?;
    put_streams(out, chosen.mode())
}

/// Puts the numbers and what was said yes or no to.
fn put_choices(out: &mut Output, chosen: &Settings) -> anyhow::Result<()> {
    out.put_shown(&chosen.workers.number())?;
    out.put(" ")?;
    out.put_shown(&chosen.history_cap())?;
    out.put(" ")?;
    put_mode(out, chosen.mode())?;
    out.put(" ")?;
    out.put_sign(chosen.is_two_way())?;
    out.put(" ")?;
    out.put_sign(chosen.has_paths())
}

/// Puts whether the queries are checked, and how many tuples are generated, or `-`.
fn put_mode(out: &mut Output, mode: ModeRef<'_>) -> anyhow::Result<()> {
    out.put_sign(matches!(mode, ModeRef::Check(_)))?;
    out.put(" ")?;
    match mode {
        ModeRef::Generate(_directions, count) => out.put_shown(&count),
        ModeRef::Check(_) | ModeRef::Streams(_) => out.put("-"),
    }
}

/// Puts the words of the options that name files.
fn put_files(out: &mut Output, chosen: &Settings) -> anyhow::Result<()> {
    put_file(out, chosen.joins())?;
    put_file(out, chosen.asks())?;
    put_file(out, chosen.replies())?;
    put_file(out, chosen.save())?;
    put_file(out, chosen.from())?;
    put_readers(out, chosen.readers())?;
    put_faults(out, chosen.faults())
}

/// Puts the word of an option, or `-` where it isn't given.
fn put_file(out: &mut Output, word: Option<&FileWord>) -> anyhow::Result<()> {
    out.put(" ")?;
    match word {
        Some(word) => put_word(out, word),
        None => out.put("-"),
    }
}

/// Puts the words of the readers, for each that of its asks and that of its replies, or `-` where
/// there is no reader.
fn put_readers(out: &mut Output, readers: &[ReaderFiles]) -> anyhow::Result<()> {
    out.put(" ")?;
    if readers.is_empty() {
        return out.put("-");
    }
    for reader in readers {
        put_word(out, &reader.asks)?;
        put_word(out, &reader.replies)?;
    }
    Ok(())
}

/// Puts the words of the files of faulty lines, or `-` where there is none.
fn put_faults(out: &mut Output, faults: &[FileWord]) -> anyhow::Result<()> {
    out.put(" ")?;
    if faults.is_empty() {
        return out.put("-");
    }
    put_words(out, faults)
}

/// Puts the words of the streams, or `-` where none is read.
fn put_streams(out: &mut Output, mode: ModeRef<'_>) -> anyhow::Result<()> {
    match mode {
        ModeRef::Check(_) | ModeRef::Generate(_, _) => out.put("-"),
        ModeRef::Streams(StreamSettings::BothWays(run)) => put_words(out, run.streams.as_slice()),
        ModeRef::Streams(StreamSettings::Forwards(run)) => match &run.input {
            Input::Fresh(names) => put_words(out, names.as_slice()),
            Input::Resumed {
                from: _from,
                stream,
            } => put_word(out, stream),
        },
    }
}

fn put_words(out: &mut Output, words: &[FileWord]) -> anyhow::Result<()> {
    for word in words {
        put_word(out, word)?;
    }
    Ok(())
}

fn put_word(out: &mut Output, word: &FileWord) -> anyhow::Result<()> {
    out.put("[")?;
    out.put_bytes(word.as_str().as_bytes())?;
    out.put("]")
}
