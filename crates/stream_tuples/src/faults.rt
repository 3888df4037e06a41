//! What becomes of the faulty lines of a stream.

ghost use Rattle.std.specs.Prelude.{◌≡◌, ◌++◌, codes, decimal, IfOk, OnOk};
ghost use Rattle.tuple_text.specs.FaultTexts.{fault_text};
ghost use Rattle.stream_tuples.specs.Faults.{fault_report, long_report};

use rpq_base::{Memory, Tuple};
use std::alloc::{AllocError, Global};
use std::marker::Model;
use text_parts::push_decimal;
use tuple_text::BadLine;

/// What becomes of a line of a stream that is faulty or too long.
#[derive(Clone, Copy, Debug, PartialEq, Eq)]
pub enum FaultPolicy {
    /// It ends the stream.
    Stop,
    /// It is told apart, and the stream goes on behind it.
    Report,
}

/// What is told of a line that is faulty or too long: `line `, its number, what is wrong with it,
/// and its bytes, with a line feed. Contracts see it as the bytes of this text.
#[derive(Debug)]
pub struct FaultReport {
    text: Vec<u8>,
}

// By hand: of a derived drop each crate that drops a report would prove all parts anew.
impl Drop for FaultReport {
    fn drop(self) {
        let FaultReport { text: _text } = self;
    }
}

impl Model for FaultReport {
    ghost use Rattle.std.specs.Prelude.{List, ℕ};

    ghost Value = { List ℕ };

    ghost view = { λ report. report.text.items };
}

/// What a line of a stream gives that is neither blank nor a comment, and doesn't end the stream.
#[derive(Debug, Drop)]
pub enum StreamItem {
    /// The line is a tuple.
    Tuple(Tuple),
    /// The line is faulty or too long, and this is told of it.
    Fault(FaultReport),
}

impl FaultReport {
    /// The text, with its line feed.
    pub fn as_bytes(&self) -> &[u8]
        ensures { result.now ≡ self.now }
    {
        &self.text
    }

    /// What is told of the line with this number, which has this fault. The only error is
    /// [`Memory`].
    pub fn of_line(
        alloc: Global,
        number: u64,
        fault: BadLine,
        line: &[u8],
    ) -> Result<FaultReport, Memory>
        ensures { IfOk result (λ report. report ≡ fault_report number (fault_text fault) line.now) }
    {
        let mut text = Vec::new(alloc);
        push_number(&mut text, number)?;
        push_fault(&mut text, fault)?;
        push_line(&mut text, line)?;
        Ok(FaultReport { text })
    }

    /// What is told of the line with this number, which is too long and has these first bytes. The
    /// only error is [`Memory`].
    pub fn of_long_line(alloc: Global, number: u64, front: &[u8]) -> Result<FaultReport, Memory>
        ensures { IfOk result (λ report. report ≡ long_report number front.now) }
    {
        let mut text = Vec::new(alloc);
        push_number(&mut text, number)?;
        text.extend_from_slice(b"too long")?;
        push_line(&mut text, front)?;
        Ok(FaultReport { text })
    }
}

/// Writes which line it is.
fn push_number(text: &mut Vec<u8>, number: u64) -> Result<(), AllocError>
    ensures { OnOk result
        (text.new.items ≡ text.old.items ++ (codes "line " ++ (decimal number ++ codes ": "))) }
{
    text.extend_from_slice(b"line ")?;
    push_decimal(text, number)?;
    text.extend_from_slice(b": ")
}

/// Writes what is wrong with a line.
fn push_fault(text: &mut Vec<u8>, fault: BadLine) -> Result<(), AllocError>
    ensures { OnOk result (text.new.items ≡ text.old.items ++ fault_text fault) }
{
    match fault {
        BadLine::Fields(count) => push_count(text, b"fields ", count),
        BadLine::Time => text.extend_from_slice(b"time"),
        BadLine::TimeRange => text.extend_from_slice(b"time range"),
        BadLine::BadName(place) => push_count(text, b"name ", place),
        BadLine::Op => text.extend_from_slice(b"operation"),
        BadLine::Until => text.extend_from_slice(b"until"),
        BadLine::Memory => text.extend_from_slice(b"memory"),
    }
}

/// Writes a word and a number.
fn push_count(text: &mut Vec<u8>, word: &[u8], count: u32) -> Result<(), AllocError>
    ensures { OnOk result (text.new.items ≡ text.old.items ++ (word.now ++ decimal count)) }
{
    text.extend_from_slice(word)?;
    push_decimal(text, u64::from(count))
}

/// Writes the bytes of a line at the end of what is told of it.
fn push_line(text: &mut Vec<u8>, line: &[u8]) -> Result<(), AllocError>
    ensures { OnOk result
        (text.new.items ≡ text.old.items ++ (codes ": " ++ (line.now ++ codes "\n"))) }
{
    text.extend_from_slice(b": ")?;
    text.extend_from_slice(line)?;
    text.extend_from_slice(b"\n")
}
