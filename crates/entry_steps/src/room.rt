//! How many entries an engine takes.

ghost use Rattle.std.specs.Prelude.{◌≤◌, ◌<◌, ◌+◌, ◌*◌, ◌^◌, OnOk, OnErr};

use rpq_base::Memory;

/// The most entries that an engine takes until it is rebuilt.
const MOST_FED: u64 = 1 << 30;

/// Whether an engine that was fed so many entries takes as many more, each with its inverse. The
/// error is [`Memory`].
///
/// It is made here, since no allocator refused anything: an engine gives up to two names a number
/// of 32 bits with each entry until it is rebuilt, and there are no more of these numbers.
pub fn room_for(fed: u64, entries: usize) -> Result<(), Memory>
    ensures ok { OnOk result (fed + 2 * entries ≤ 2 ^ 30) }
    ensures full { OnErr result (2 ^ 30 < fed + 2 * entries) }
{
    if fed <= MOST_FED && entries as u64 <= (MOST_FED - fed) / 2 {
        Ok(())
    } else {
        Err(Memory)
    }
}
