//! Lists that each source keeps from one change to the next, with their memory.

ghost use Rattle.std.specs.Prelude.{◌≡◌, ◌++◌, ◌∷◌, [], OnOk};

use rpq_base::Memory;

/// The number of places up to which a list keeps its memory. Most changes are small, and there are
/// many sources.
const FEW: usize = 4;

/// Empties the list, which so many elements at most will come into. Memory for far more than these
/// is given back, but for a few places, so that small changes take and give none.
pub(crate) fn empty_for<T: Drop>(list: &mut Vec<T>, most: usize)
    ensures { list.new.items ≡ [] }
{
    list.clear();
    if list.capacity() > FEW && list.capacity() / 4 > most {
        list.shrink_to(most.max(FEW));
    }
}

/// Adds an element at the end. A list has room for one at first, and then for twice as many as
/// before, since most lists never get longer than that.
pub(crate) fn add<T: Drop>(list: &mut Vec<T>, element: T) -> Result<(), Memory>
    ensures { OnOk result (list.new.items ≡ list.old.items ++ element ∷ []) }
{
    if list.len() == list.capacity() {
        list.reserve_exact(list.len().max(1))?;
    }
    list.push(element)?;
    Ok(())
}
