//! From words to settings.

ghost use Rattle.std.specs.Prelude.{◌≡◌, ◌≢◌, ◌⊎◌, Some, None, Err, IfOk, true, false};
ghost use Rattle.clap.specs.Walk.{rows_of};
ghost use Rattle.clap.specs.Matches.{found_of};
ghost use Rattle.rpq_words.specs.Command.{found_in, is_taken};
ghost use Rattle.rpq_words.specs.Modes.{AreSettings};
ghost use Rattle.rpq_words.specs.Found.{words_found};
ghost use Rattle.rpq_words.specs.Settings.{settings, settled, texts};

use crate::command::command;
use crate::fault::WordsFault;
use crate::fault_names::FaultNames;
use crate::file_word::{FileWord, file_words, optional_file_word};
use crate::matches::{all_of, first_of, has_flag};
use crate::numbers::{needed_workers, optional_number};
use crate::parsed_words::{ParsedWords, StreamWords};
use crate::reader_names::ReaderNames;
use crate::settings::Settings;
use crate::stream_names::StreamNames;
use clap::ArgMatches;
use clap::error::ErrorKind;
use std::alloc::Global;

/// The most tuples that a history with a cap may hold.
const MAX_HISTORY: u64 = 2_000_000;

/// The most tuples that are generated.
const MAX_GENERATED: u64 = 1_000_000;

/// The settings of the words, of which the first is the program's name.
///
/// The words are refused exactly where they have no settings, unless memory runs out.
#[tactic(auto, unfolding(crate::specs::Settings::settings))]
pub fn read_words(alloc: Global, words: &[String]) -> Result<Settings, WordsFault>
    ensures ok { IfOk result (λ chosen. settings (texts words.now) ≡ Some chosen) }
    ensures sound { IfOk result AreSettings }
    ensures refused { result ≡ Err WordsFault.Refused → settings (texts words.now) ≡ None }
    ensures none { settings (texts words.now) ≡ None
        → (result ≡ Err WordsFault.Refused) ⊎ (result ≡ Err WordsFault.Memory) }
{
    match parse(alloc, words) {
        Ok(matches) => settings_of_matches(alloc, &matches),
        Err(fault) => Err(fault),
    }
}

/// What the command finds in the words.
fn parse<'a>(alloc: Global, words: &'a [String]) -> Result<ArgMatches<'a>, WordsFault>
    ensures taken { IfOk result (λ matches. is_taken (texts words.now) ≡ true) }
    ensures found { IfOk result (λ matches. rows_of (found_of matches)
        ≡ found_in (texts words.now)) }
    ensures refused { result ≡ Err WordsFault.Refused → is_taken (texts words.now) ≡ false }
{
    match command(alloc)?.try_get_matches_from(words) {
        Ok(matches) => Ok(matches),
        Err(error) => Err(fault_of(error.kind())),
    }
}

/// Why words aren't taken of which the parse fails so.
fn fault_of(kind: ErrorKind) -> WordsFault
    ensures refused { result ≡ WordsFault.Refused → kind ≢ ErrorKind.OutOfMemory }
    ensures memory { result ≡ WordsFault.Memory → kind ≡ ErrorKind.OutOfMemory }
{
    match kind {
        ErrorKind::OutOfMemory => WordsFault::Memory,
        _ => WordsFault::Refused,
    }
}

/// What was found, where each number is in its range and all can stand together.
#[tactic(auto, unfolding(crate::specs::Settings::settled))]
fn settings_of_matches(alloc: Global, matches: &ArgMatches<'_>) -> Result<Settings, WordsFault>
    ensures ok { IfOk result (λ chosen.
        settled (rows_of (found_of matches.now)) ≡ Some chosen) }
    ensures refused { result ≡ Err WordsFault.Refused
        → settled (rows_of (found_of matches.now)) ≡ None }
{
    let found = read_found(alloc, matches)?;
    found.into_settings().ok_or(WordsFault::Refused)
}

/// What was found, where each number is in its range.
#[tactic(auto, unfolding(crate::specs::Found::words_found))]
fn read_found(alloc: Global, matches: &ArgMatches<'_>) -> Result<ParsedWords, WordsFault>
    ensures ok { IfOk result (λ found.
        words_found (rows_of (found_of matches.now)) ≡ Some found) }
    ensures refused { result ≡ Err WordsFault.Refused
        → words_found (rows_of (found_of matches.now)) ≡ None }
{
    let workers = needed_workers(first_of(matches, "workers")).ok_or(WordsFault::Refused)?;
    let history = optional_number(first_of(matches, "history"), MAX_HISTORY).ok_or(
        WordsFault::Refused,
    )?;
    let generate = optional_number(first_of(matches, "generate"), MAX_GENERATED).ok_or(
        WordsFault::Refused,
    )?;
    let queries = first_of(matches, "queries").ok_or(WordsFault::Refused)?;
    let readers = ReaderNames::of_pairs(alloc, all_of(matches, "reader"))?;
    Ok(ParsedWords {
        workers,
        history,
        check: has_flag(matches, "check"),
        generate,
        two_way: has_flag(matches, "two-way"),
        endless: has_flag(matches, "endless"),
        queries: FileWord::new(alloc, queries)?,
        words: StreamWords {
            paths: has_flag(matches, "paths"),
            joins: optional_file_word(alloc, first_of(matches, "joins"))?,
            asks: optional_file_word(alloc, first_of(matches, "asks"))?,
            replies: optional_file_word(alloc, first_of(matches, "replies"))?,
            save: optional_file_word(alloc, first_of(matches, "save"))?,
            from: optional_file_word(alloc, first_of(matches, "from"))?,
            readers,
            faults: FaultNames::new(file_words(alloc, all_of(matches, "faults"))?),
            streams: StreamNames::new(file_words(alloc, all_of(matches, "streams"))?),
        },
    })
}
