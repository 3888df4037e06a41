//! Texts that are read line by line.

ghost use Rattle.std.specs.Prelude.{◌≡◌, ℕ, List, length, Result, Ok, Err, IfOk, IfErr};
ghost use Rattle.text_parts.specs.Lines.{lines};
ghost use Rattle.text_parts.specs.Reading.{reached};

use crate::lines::{split_line, without_return};

/// What reads a text line by line. Contracts see the `step` that a line makes, which knows the
/// line's number, from 1; the faults that are `told`, which are those of the text; and whether the
/// reader `can_read`.
pub trait TextReader {
    /// What the lines so far give.
    type Progress: Drop;

    /// Why a line isn't taken.
    type Fault: Drop;

    ghost can_read: { Self → Type 0 };

    ghost step: { Self → ℕ → Self.Progress → List ℕ →
        Result Self.Progress Self.Fault };

    ghost told: { Self.Fault → Type 0 };

    /// What the lines up to this one give, which stands without its line feed and its carriage
    /// return.
    fn with_line(
        &self,
        number: u64,
        before: Self::Progress,
        line: &[u8],
    ) -> Result<Self::Progress, Self::Fault>
        requires { can_read self.now }
        ensures ok { IfOk result (λ next. step self.now number before line.now ≡ Ok next) }
        ensures err { IfErr result (λ fault. told fault →
            step self.now number before line.now ≡ Err fault) };
}

/// What the lines of the bytes give, and how many they are; or the first fault.
pub fn read_lines<R: TextReader>(
    reader: &R,
    start: R::Progress,
    bytes: &[u8],
) -> Result<(R::Progress, u64), R::Fault>
    requires { R.can_read reader.now }
    ensures ok { IfOk result (λ read.
        reached (R.step reader.now) 0 start (lines bytes.now) ≡ Ok read.0) }
    ensures count { IfOk result (λ read. read.1 ≡ length (lines bytes.now)) }
    ensures err { IfErr result (λ fault. R.told fault →
        reached (R.step reader.now) 0 start (lines bytes.now) ≡ Err fault) }
{
    let mut progress = start;
    let mut rest = bytes;
    let mut count = 0;
    while let Some((line, after)) = split_line(rest) {
        count += 1;
        progress = reader.with_line(count, progress, without_return(line))?;
        rest = after;
    }
    Ok((progress, count))
}
