//! Marks of entries.

ghost use Rattle.std.specs.Prelude.{◌≡◌};
ghost use Rattle.rpq_model.specs.WindowLaws.{IsTupleDeadline};
ghost use Rattle.path_witness.specs.Marks.{mark_above};
ghost use Rattle.path_witness.specs.Taking.{IsRaised};

use rpq_base::Tuple;
use rpq_model::{Window, own_end};
use window_clock::WindowClock;

/// The position of an entry in its history, from 1, and its deadline: the clock at which it leaves
/// the window of a query.
#[derive(Clone, Copy, Debug, PartialEq, Eq)]
pub struct Mark {
    pub position: u64,
    pub deadline: u64,
}

/// The deadline in the window of the insert that this tuple is.
pub(crate) fn tuple_deadline(window: Window, tuple: &Tuple) -> u64
    ensures { IsTupleDeadline window tuple.now result }
{
    let clock = WindowClock::new(window.size, window.slide);
    clock.entry_deadline(tuple.time, own_end(&tuple.act))
}

/// The better of a mark that may be there and that of this position for the tuple in the window.
pub(crate) fn raised(window: Window, position: u64, tuple: &Tuple, before: Option<Mark>) -> Mark
    ensures { IsRaised window position tuple.now before result }
{
    let new = Mark {
        position,
        deadline: tuple_deadline(window, tuple),
    };
    match before {
        Some(old) if new.deadline < old.deadline => old,
        _ => new,
    }
}

/// A mark that may be there, if its deadline is above the clock.
pub(crate) fn mark_above(mark: Option<Mark>, now: u64) -> Option<Mark>
    ensures { result ≡ mark_above now mark }
{
    match mark {
        Some(kept) if now < kept.deadline => Some(kept),
        _ => None,
    }
}
