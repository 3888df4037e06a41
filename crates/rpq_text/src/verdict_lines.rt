//! The text of a verdict's line up to the verdict.

ghost use Rattle.std.specs.Prelude.{◌≡◌};
ghost use Rattle.rpq_text.specs.WordTexts.{verdict_front};

use crate::error_lines::{Line, line_of};
use itoa::Buffer;
use rpq_model::{Mode, QueryDef};

/// What stands between the name of a query and the verdict: the paths that the query takes, and how
/// many states its least automaton has.
pub fn verdict_front(query: &QueryDef, states: u32) -> Line
    ensures { result.bytes ≡ verdict_front query.now.mode states }
{
    let mut digits = Buffer::new();
    let count = digits.format(u64::from(states));
    match query.mode {
        Mode::Arbitrary => line_of(&[" arbitrary states ", count]),
        Mode::Simple => line_of(&[" simple states ", count]),
    }
}
