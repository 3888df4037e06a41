//! Roots whose rows have to be read again.

ghost use Rattle.std.specs.Prelude.{◌⊎◌, ℕ, Contains, OnOk};
ghost use Rattle.query_index.specs.Shown.{IsStale};
ghost use Rattle.query_index.specs.Showing.{Marks};

use crate::root_list::RootList;
use rpq_base::Memory;
use std::alloc::Global;

/// The roots whose rows may differ from what the forest shows.
#[derive(Drop)]
pub enum StaleRoots {
    /// All roots.
    Every,
    /// These roots alone.
    Roots(RootList),
}

impl StaleRoots {
    /// Marks these roots too. Where memory for them runs out, all roots are stale.
    pub(crate) fn mark(&mut self, roots: &[u32])
        ensures { Marks self.old roots.now self.new }
    {
        if let StaleRoots::Roots(stale) = self {
            if add_all(stale, roots).is_err() {
                *self = StaleRoots::Every;
            }
        }
    }

    /// No root is stale any more. The memory of a list of roots is kept for those to come.
    pub(crate) fn emptied(self, alloc: Global) -> StaleRoots
        ensures { (root : ℕ) → IsStale result root → ⊥ }
    {
        match self {
            StaleRoots::Every => StaleRoots::Roots(RootList::new(alloc)),
            StaleRoots::Roots(mut stale) => {
                stale.clear();
                StaleRoots::Roots(stale)
            }
        }
    }
}

/// Adds the roots.
fn add_all(stale: &mut RootList, roots: &[u32]) -> Result<(), Memory>
    ensures { OnOk result ((root : ℕ) → Contains stale.old root ⊎ Contains roots.now root →
        Contains stale.new root) }
{
    for root in roots {
        stale.add(*root)?;
    }
    Ok(())
}
