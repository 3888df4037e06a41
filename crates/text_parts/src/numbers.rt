//! Numbers in digits.

ghost use Rattle.std.specs.Prelude.{◌≡◌, ◌+◌, ◌*◌, ◌<◌, ◌≤◌, ◌↔◌, ◌++◌, Some, SomeIff, IsTrue};
ghost use Rattle.std.specs.Prelude.{IfOk, IfErr, is_ok, decimal, if◌then◌else◌};
ghost use Rattle.std.specs.Result.{result_ok};
ghost use Rattle.text_parts.specs.FaultTexts.{number_fault_text};
ghost use Rattle.text_parts.specs.Numbers.{IsDigitText, is_digit_text, number_of, number_within};

use itoa::Buffer;
use std::alloc::AllocError;
use std::error::Error;
use std::fmt;

/// Why a text is no number that was asked for.
#[derive(Clone, Copy, Debug, PartialEq, Eq)]
pub enum NumberFault {
    /// The text is empty, or a byte of it is no digit.
    NotDigits,
    /// The text is a number above the greatest that is taken.
    TooLarge,
}

impl fmt::Display for NumberFault {
    ghost output = { λ fault. Some (number_fault_text fault) };

    fn fmt<W: fmt::Write>(&self, f: &mut fmt::Formatter<W>) -> fmt::Result {
        match self {
            Self::NotDigits => f.write_str("not digits"),
            Self::TooLarge => f.write_str("number too large"),
        }
    }
}

impl Error for NumberFault {}

/// The number that a text of digits writes, where it is at most `most`. Any number of digits is
/// read, zeros in front among them.
pub fn read_number(text: &[u8], most: u64) -> Result<u64, NumberFault>
    ensures digits { IfOk result (λ number. IsDigitText text.now) }
    ensures value { IfOk result (λ number. number ≡ number_of text.now) }
    ensures within { IfOk result (λ number. number ≤ most) }
    ensures not_digits { (result ≡ Err NumberFault.NotDigits) ↔ ¬ (IsDigitText text.now) }
    ensures too_large { (result ≡ Err NumberFault.TooLarge)
        ↔ (IsDigitText text.now × (most < number_of text.now)) }
    ensures refused { IfErr result (λ fault. IsDigitText text.now → most < number_of text.now) }
    ensures answer { result_ok result ≡ number_within most text.now }
{
    if !is_digit_text(text) {
        return Err(NumberFault::NotDigits);
    }
    let mut number = 0;
    for byte in text {
        let digit = u64::from(*byte - b'0');
        match with_digit(number, digit, most) {
            Some(next) => number = next,
            None => return Err(NumberFault::TooLarge),
        }
    }
    Ok(number)
}

/// Whether the text is one or more digits.
fn is_digit_text(text: &[u8]) -> bool
    ensures test { result ≡ is_digit_text text.now }
    ensures exact { IsTrue result ↔ IsDigitText text.now }
{
    !text.is_empty() && text.iter().all(|byte| byte.is_ascii_digit())
}

/// The number with one more digit behind it, where it is at most `most`.
fn with_digit(number: u64, digit: u64, most: u64) -> Option<u64>
    ensures { SomeIff result (10 * number + digit ≤ most) (10 * number + digit) }
{
    number
        .checked_mul(10)?
        .checked_add(digit)
        .filter(|next| *next <= most)
}

/// Writes a number in decimal at the end of the bytes. Where memory is refused they stay as they
/// are.
pub fn push_decimal(out: &mut Vec<u8>, number: u64) -> Result<(), AllocError>
    ensures { out.new.items
        ≡ (if is_ok result then out.old.items ++ decimal number else out.old.items) }
{
    out.extend_from_slice(Buffer::new().format(number).as_bytes())
}
