//! The fields of a request.

ghost use Rattle.std.specs.Prelude.{◌≤◌, ◌^◌, IfOk, vec_len};

use percent_encoding::percent_decode;
use rpq_base::Memory;
use std::alloc::{AllocError, Global};
use text_parts::read_number;

/// The most bytes of a field that count.
const MAX_BYTES: usize = 1 << 24;

/// The fields that were not taken yet.
#[derive(Clone, Copy)]
pub struct Fields<'a> {
    rest: &'a [u8],
}

impl<'a> Fields<'a> {
    pub fn new(line: &'a [u8]) -> Fields<'a> {
        Fields { rest: line }
    }

    /// The next field, as it stands.
    pub fn next(&mut self) -> &'a [u8] {
        let (field, rest) = cut(self.rest, b' ');
        self.rest = rest;
        field
    }

    /// All that is left, as it stands.
    pub fn rest(self) -> &'a [u8] {
        self.rest
    }

    /// The number that the next field writes, or 0.
    pub fn number(&mut self) -> u64 {
        read_number(self.next(), u64::MAX).unwrap_or(0)
    }
}

/// What stands before the first such byte, and what stands after it.
fn cut(text: &[u8], separator: u8) -> (&[u8], &[u8]) {
    let mut parts = text.splitn(2, |byte| *byte == separator);
    let front = parts.next().unwrap_or(&[]);
    (front, parts.next().unwrap_or(&[]))
}

/// The parts of a text, between which the separator stands.
pub fn parts<'a>(
    alloc: Global,
    text: &'a [u8],
    separator: u8,
) -> Result<Vec<&'a [u8]>, AllocError> {
    text.split(|byte| *byte == separator).collect(alloc)
}

/// The bytes that a part of a request stands for, where `%` and two digits stand for one.
pub fn decoded(alloc: Global, part: &[u8]) -> Result<Vec<u8>, Memory>
    ensures { IfOk result (λ bytes. vec_len bytes ≤ 2 ^ 24) }
{
    let mut bytes = Vec::new(alloc);
    percent_decode(part).append_to(&mut bytes)?;
    bytes.truncate(MAX_BYTES);
    Ok(bytes)
}
