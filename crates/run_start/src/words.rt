//! The settings that a run is given by its words.

ghost use Rattle.std.specs.Prelude.{◌≡◌, Some, IfOk, IfErr};
ghost use Rattle.rpq_words.specs.Modes.{AreSettings};
ghost use Rattle.rpq_words.specs.Settings.{settings, texts};
ghost use Rattle.run_start.specs.Ready.{IsWordsCause};
ghost use Rattle.run_start.specs.Start.{IsDecided};

use rpq_text::StartFault;
use rpq_words::{Settings, WordsFault, read_words};
use std::alloc::Global;

/// The settings of the words, where they have any.
pub fn settings_of(alloc: Global, words: &[String]) -> Result<Settings, StartFault>
    ensures ok { IfOk result (λ chosen. settings (texts words.now) ≡ Some chosen) }
    ensures taken { IfOk result AreSettings }
    ensures cause { IfErr result (IsWordsCause (settings (texts words.now))) }
    ensures decided { IfErr result (λ fault. IsDecided (settings (texts words.now)) (Some fault)) }
{
    match read_words(alloc, words) {
        Ok(chosen) => Ok(chosen),
        Err(WordsFault::Refused) => Err(StartFault::Words),
        Err(WordsFault::Memory) => Err(StartFault::Memory),
    }
}
