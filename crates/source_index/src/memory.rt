//! Memory that is given back.

ghost use Rattle.std.specs.Prelude.{◌≡◌};

use due_queue::room_to_keep;
use indexmap::IndexMap;
use std::hash::Hash;

/// Gives the memory back that a map needs no more.
pub(crate) fn give_back<K: Eq + Hash, V>(map: &mut IndexMap<K, V>)
    ensures { map.new.entries ≡ map.old.entries }
{
    if let Some(room) = room_to_keep(map.len(), map.capacity()) {
        map.shrink_to(room);
    }
}
