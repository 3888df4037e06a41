//! Room in a list.

ghost use Rattle.std.specs.Prelude.{◌≡◌, ◌<◌, vec_len, vec_capacity, OnOk};

use std::alloc::AllocError;

/// Makes room for one more element: for two in an empty list, and else for twice as many.
pub fn make_room<T>(list: &mut Vec<T>) -> Result<(), AllocError>
    ensures same { list.new.items ≡ list.old.items }
    ensures room { OnOk result (vec_len list.new < vec_capacity list.new) }
{
    if list.len() == list.capacity() {
        list.reserve_exact(list.len().max(2))?;
    }
    Ok(())
}

/// Gives memory back where three quarters of the room aren't used.
pub fn give_back<T>(list: &mut Vec<T>)
    ensures { list.new.items ≡ list.old.items }
{
    if list.len() <= list.capacity() / 4 {
        list.shrink_to(list.len() * 2);
    }
}
