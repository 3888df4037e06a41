//! Laws of the definitions. The functions do nothing: their contracts are the laws.

ghost use Rattle.rpq_words.specs.Examples.{SettingsExamples};
ghost use Rattle.rpq_words.specs.Modes.{SettingsAreFound, WordsAreSettings};

/// What was found has settings exactly where it doesn't clash, and they say all that was found.
pub fn settings_are_found()
    ensures { SettingsAreFound }
{}

/// The numbers in the settings of words are in their ranges, 1 to 64 streams are read where some
/// are, each of them has a file of faulty lines or none has one, and a run doesn't save to the file
/// that it begins with.
pub fn words_are_settings()
    ensures { WordsAreSettings }
{}

/// Some command lines with their settings, and some that have none.
pub fn settings_examples()
    ensures { SettingsExamples }
{}
