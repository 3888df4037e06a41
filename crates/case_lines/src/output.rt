//! The text that is printed.

use percent_encoding::{AsciiSet, CONTROLS, ascii_set, percent_encode};
use std::alloc::Global;
use std::fmt;

/// The bytes that are printed as `%` and two digits, beside those above 0x7F.
const ESCAPED: AsciiSet = ascii_set!(CONTROLS.add(b'%'));

/// The answers so far.
#[derive(Drop)]
pub struct Output {
    text: String,
}

impl Output {
    pub fn new(alloc: Global) -> Output {
        Output {
            text: String::new(alloc),
        }
    }

    /// All that was put into it.
    pub fn as_str(&self) -> &str {
        self.text.as_str()
    }

    /// Puts a text at the end.
    pub fn put(&mut self, text: &str) -> anyhow::Result<()> {
        Ok(self.text.push_str(text)?)
    }

    /// Puts bytes at the end, those that can't be seen as `%` and two digits.
    pub fn put_bytes(&mut self, bytes: &[u8]) -> anyhow::Result<()> {
        Ok(percent_encode(bytes, ESCAPED).append_to(&mut self.text)?)
    }

    /// Puts a number or a fault at the end.
    pub fn put_shown<T: fmt::Display>(&mut self, value: &T) -> anyhow::Result<()> {
        Ok(write!(self.text, "{value}")?)
    }

    /// Puts `+` at the end where it holds, else `-`.
    pub fn put_sign(&mut self, holds: bool) -> anyhow::Result<()> {
        self.put(if holds { "+" } else { "-" })
    }

    /// Puts numbers at the end, with a space before each.
    pub fn put_numbers(&mut self, numbers: &[u32]) -> anyhow::Result<()> {
        for number in numbers {
            self.put(" ")?;
            self.put_shown(number)?;
        }
        Ok(())
    }
}
