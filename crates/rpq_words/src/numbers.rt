//! The numbers of the options.

ghost use Rattle.std.specs.Prelude.{◌≡◌, ◌≤◌, IfSome, option_and_then, option_map};
ghost use Rattle.rpq_words.specs.Found.{number_from_one, optional_number};

use rpq_base::{MAX_WORKERS, Workers};
use text_parts::read_number;

/// The number that the text writes in digits, where it is from 1 to `most`.
#[tactic(auto, unfolding(crate::specs::Found::number_from_one))]
pub(crate) fn number_from_one(text: &str, most: u64) -> Option<u64>
    ensures number { result ≡ number_from_one most text.now }
    ensures some { IfSome result (λ number. 1 ≤ number) }
    ensures within { IfSome result (λ number. number ≤ most) }
{
    match read_number(text.as_bytes(), most) {
        Ok(number) if number >= 1 => Some(number),
        _ => None,
    }
}

/// The number of an option that stands there or has a default.
fn needed_number(text: Option<&str>, most: u64) -> Option<u64>
    ensures number { result
        ≡ option_and_then (number_from_one most) (option_map (λ known. known.now) text.entry) }
    ensures some { IfSome result (λ number. 1 ≤ number) }
    ensures within { IfSome result (λ number. number ≤ most) }
{
    number_from_one(text?, most)
}

/// The number of workers, which stands there or has a default.
pub(crate) fn needed_workers(text: Option<&str>) -> Option<Workers>
    ensures { result
        ≡ option_and_then (number_from_one 64) (option_map (λ known. known.now) text.entry) }
{
    let number = needed_number(text, MAX_WORKERS as u64)?;
    Workers::new(number as u32)
}

/// The number of an option that need not stand there; `None` where it stands there with no number
/// in its range.
#[tactic(auto, unfolding(crate::specs::Found::optional_number))]
pub(crate) fn optional_number(text: Option<&str>, most: u64) -> Option<Option<u64>>
    ensures { result ≡ optional_number most (option_map (λ known. known.now) text.entry) }
{
    match text {
        Some(text) => Some(Some(number_from_one(text, most)?)),
        None => Some(None),
    }
}
