//! The targets of a source.

ghost use Rattle.std.specs.Prelude.{◌≡◌, length};
ghost use Rattle.std.specs.List.Sorted.{IsSearchInRange, IsBinarySearchResult};
ghost use Rattle.rpq_base.specs.Order.{name_cmp};
ghost use Rattle.answer_rows.specs.Answers.{AreTargets, has_target, end_of};

use rpq_base::{Memory, Name, TryClone};
use std::alloc::AllocError;

/// A vertex that a source leads to, and the time until which this answer lasts: at a clock below
/// `until` it is an answer still.
#[derive(Debug, PartialEq, Eq, Drop)]
pub struct Target {
    pub to: Name,
    pub until: u64,
}

impl TryClone for Target {
    fn copy(&self) -> Result<Target, Memory> {
        Ok(Target {
            to: self.to.copy()?,
            until: self.until,
        })
    }
}

// A row that is shared is cloned before it is changed.
impl Clone for Target {
    ghost is_clone = { λ source clone. clone ≡ source };

    fn clone(&self) -> Result<Target, AllocError> {
        match self.copy() {
            Ok(copy) => Ok(copy),
            Err(memory) => Err(AllocError::from(memory)),
        }
    }
}

/// The place of the target with this name, or else the place where it would stand.
pub(crate) fn place_of(targets: &[Target], to: &Name) -> Result<usize, usize>
    ensures within { IsSearchInRange result (length targets.now) }
    ensures place { IsBinarySearchResult (λ each. name_cmp each.to to.now) targets.now result }
{
    targets.binary_search_by(|each| each.to.cmp(to))
}

/// Whether a target has this name.
pub(crate) fn has_target(targets: &[Target], to: &Name) -> bool
    requires { AreTargets targets.now }
    ensures { result ≡ has_target targets.now to.now }
{
    place_of(targets, to).is_ok()
}

/// The end of the target with this name.
pub(crate) fn end_of(targets: &[Target], to: &Name) -> Option<u64>
    requires { AreTargets targets.now }
    ensures { result ≡ end_of targets.now to.now }
{
    match place_of(targets, to) {
        Ok(place) => Some(targets[place].until),
        Err(_) => None,
    }
}
