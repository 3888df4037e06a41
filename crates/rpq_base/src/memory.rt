//! Out of memory, and copies that may meet it.

ghost use Rattle.std.specs.Prelude.{◌≡◌, ◌+◌, ◌^◌, ◌≤◌, IfOk, OnErr, Some};
ghost use Rattle.rpq_base.specs.FaultTexts.{memory_text};

use std::alloc::{AllocError, AllocFailed, Global};
use std::error::Error;
use std::fmt;

/// Memory ran out: the allocator refused what it was asked for, or the room that is needed is too
/// large to ask for, as [`stored_in_all`] says.
///
/// Other crates make none by themselves: they hand on what an allocator or a call of theirs said.
#[derive(Clone, Copy, Debug, PartialEq, Eq)]
pub struct Memory;

impl From<AllocError> for Memory {
    fn from(_: AllocError) -> Self {
        Self
    }
}

impl<T: Drop> From<AllocFailed<T>> for Memory {
    fn from(_: AllocFailed<T>) -> Self {
        Self
    }
}

// A clone that copies its parts says what they said.
impl From<Memory> for AllocError {
    fn from(_: Memory) -> Self {
        Self
    }
}

impl fmt::Display for Memory {
    ghost output = { λ _. Some memory_text };

    fn fmt<W: fmt::Write>(&self, f: &mut fmt::Formatter<W>) -> fmt::Result {
        f.write_str("out of memory")
    }
}

impl Error for Memory {}

/// The number of the things that are stored, with so many more. Where no number holds it, the room
/// for as many has more bytes than any address can tell apart, and no allocator can be asked for
/// it.
pub fn stored_in_all(stored: u128, more: u128) -> Result<u128, Memory>
    ensures sum { IfOk result (λ all. all ≡ stored + more) }
    ensures beyond { OnErr result (2 ^ 128 ≤ stored + more) }
{
    match stored.checked_add(more) {
        Some(all) => Ok(all),
        None => Err(Memory),
    }
}

/// A value that can be copied where memory allows.
pub trait TryClone: Drop {
    /// An equal value.
    fn copy(&self) -> Result<Self, Memory>
        ensures { IfOk result (λ copy. copy ≡ self.now) };
}

/// Copies of all the values, in their order.
pub fn copy_all<T: TryClone>(alloc: Global, values: &[T]) -> Result<Vec<T>, Memory>
    ensures { IfOk result (λ copies. copies.items ≡ values.now) }
{
    let mut copies = Vec::with_capacity(alloc, values.len())?;
    for value in values {
        copies.push(value.copy()?)?;
    }
    Ok(copies)
}
