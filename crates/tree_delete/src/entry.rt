//! Ways by which a node can come back.

ghost use Rattle.std.specs.Prelude.{◌≡◌, ℕ, ◌⊎◌};
ghost use Rattle.tree_insert.specs.Best.{IsAtLeast};
ghost use Rattle.tree_delete.specs.Entries.{value_in};

use delta_tree::Try;

/// A try with the value that it gives its target.
#[derive(Clone, Copy)]
pub(crate) struct TreeEntry {
    pub(crate) step: Try,
    pub(crate) value: u64,
}

/// The one of the two that gives more.
pub(crate) fn better(first: Option<TreeEntry>, second: Option<TreeEntry>) -> Option<TreeEntry>
    ensures either { (result ≡ first) ⊎ (result ≡ second) }
    ensures first { (number : ℕ) → IsAtLeast number (value_in first) →
        IsAtLeast number (value_in result) }
    ensures second { (number : ℕ) → IsAtLeast number (value_in second) →
        IsAtLeast number (value_in result) }
{
    match (first, second) {
        (Some(kept), Some(next)) if kept.value < next.value => second,
        (None, _) => second,
        _ => first,
    }
}
