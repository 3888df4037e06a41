//! Words of command lines.

use crate::fields::{decoded, parts};
use std::alloc::Global;

/// The words that parts of a request are.
pub fn words_of(alloc: Global, text: &[u8]) -> anyhow::Result<Vec<String>> {
    let mut words = Vec::new(alloc);
    for part in &parts(alloc, text, b';')? {
        words.push(String::from_utf8(decoded(alloc, part)?)?)?;
    }
    Ok(words)
}
