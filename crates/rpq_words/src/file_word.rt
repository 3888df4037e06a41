//! Words that name files.

ghost use Rattle.std.specs.Prelude.{◌≡◌, IfOk, map, option_map};

use std::alloc::{AllocError, Global};
use std::marker::Model;

/// A word that names a file: any text, which may be empty. Contracts see it as that text.
#[derive(Debug, Drop)]
pub struct FileWord {
    text: String,
}

impl Model for FileWord {
    ghost use Rattle.std.specs.Prelude.{List, ℕ, string_bytes};

    ghost Value = { List ℕ };

    ghost view = { λ word. string_bytes word.text };
}

impl FileWord {
    /// The word with this text, which is copied. The only error is out of memory.
    pub(crate) fn new(alloc: Global, text: &str) -> Result<FileWord, AllocError>
        ensures { IfOk result (λ word. word ≡ text.now) }
    {
        Ok(FileWord {
            text: String::from_str(alloc, text)?,
        })
    }

    /// The text of the word.
    pub fn as_str(&self) -> &str
        ensures { result.now ≡ self.now }
    {
        self.text.as_str()
    }
}

/// The words with these texts, in their order. The only error is out of memory.
pub(crate) fn file_words(alloc: Global, texts: &[&str]) -> Result<Vec<FileWord>, AllocError>
    ensures { IfOk result (λ words. words.items ≡ map (λ text. text.now) texts.now) }
{
    let mut words = Vec::with_capacity(alloc, texts.len())?;
    for text in texts {
        words.push(FileWord::new(alloc, text)?)?;
    }
    Ok(words)
}

/// The word with this text, if there is one. The only error is out of memory.
pub(crate) fn optional_file_word(
    alloc: Global,
    text: Option<&str>,
) -> Result<Option<FileWord>, AllocError>
    ensures { IfOk result (λ word. word ≡ option_map (λ known. known.now) text.entry) }
{
    match text {
        Some(text) => Ok(Some(FileWord::new(alloc, text)?)),
        None => Ok(None),
    }
}
