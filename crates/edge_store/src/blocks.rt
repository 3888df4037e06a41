//! Bounds on the values at the places of a list, one for each block of places.

ghost use Rattle.std.specs.Prelude.{ℕ, ◌<◌, ◌≤◌, max, length, slice_index, vec_len, vec_capacity};
ghost use Rattle.edge_store.specs.Blocks.{RaisesBound};

/// How many places have one bound.
pub(crate) const BLOCK: usize = 32;

/// Raises the bound of a block to this value. A new block behind the others gets it as its bound.
pub(crate) fn raise(bounds: &mut Vec<u64>, block: usize, value: u64)
    requires next { block ≤ length bounds.old.items }
    requires room { length bounds.old.items ≤ block → vec_len bounds.old < vec_capacity bounds.old }
    ensures { RaisesBound bounds.old.items bounds.new.items block value }
{
    if block < bounds.len() {
        bounds[block] = bounds[block].max(value);
    } else {
        bounds.push_reserved(value);
    }
}

/// The first block from this one on whose bound is above the number, or the number of blocks where
/// none is.
pub(crate) fn next_block(bounds: &[u64], block: usize, number: u64) -> usize
    ensures within { result ≤ max block (length bounds.now) }
    ensures skipped { (each : ℕ) → block ≤ each → each < result →
        slice_index bounds.now each ≤ number }
{
    let mut next = block;
    while next < bounds.len() && bounds[next] <= number {
        next += 1;
    }
    next
}
