//! Memory that is given back.

ghost use Rattle.std.specs.Prelude.{◌≡◌, ◌+◌, ◌*◌, ◌<◌, ◌≤◌, ◌⊎◌, IfSome, IfNone};

/// The room that is never given back.
const LEAST_ROOM: usize = 64;

/// The room that a collection of so many elements keeps, where it is time to give memory back:
/// half of what it has, where three quarters of that aren't used any more. So it costs no more than
/// what left the collection since the last time.
pub fn room_to_keep(used: usize, room: usize) -> Option<usize>
    ensures fits { IfSome result (λ kept. used ≤ kept) }
    ensures half { IfSome result (λ kept. 2 * kept ≤ room) }
    ensures some { IfSome result (λ kept. 0 < kept) }
    ensures seldom { IfSome result (λ kept. 4 * used ≤ room) }
    ensures used { IfNone result ((room ≤ 64) ⊎ (room < 4 * (used + 1))) }
{
    if room > LEAST_ROOM && used <= room / 4 {
        return Some(room / 2);
    }
    None
}

/// Gives the memory back that a list needs no more.
pub fn give_back<T>(list: &mut Vec<T>)
    ensures { list.new.items ≡ list.old.items }
{
    if let Some(room) = room_to_keep(list.len(), list.capacity()) {
        list.shrink_to(room);
    }
}
