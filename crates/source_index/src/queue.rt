//! Roots in the order of their numbers.

ghost use Rattle.std.specs.Prelude.{◌≡◌, ◌+◌, ◌*◌, ◌≤◌, ◌⊎◌, length, IfSome, IfNone};
ghost use Rattle.source_index.specs.Dues.{AllLater, IsDueBy, due_of};
ghost use Rattle.source_index.specs.Queue.{AreNoted, AreNotedBut, ArePresent};

use due_queue::DueQueue;
use indexmap::IndexMap;

/// The number of a root, or none where it has none.
fn number_of(numbers: &IndexMap<u32, u64>, root: u32) -> Option<u64>
    ensures { result ≡ due_of numbers.now.entries root }
{
    numbers.get(&root).copied()
}

/// Forgets the numbers that roots had before, where most of what is noted may be such, and gives
/// memory back. So it costs no more than the changes since the last time.
pub(crate) fn forget_former(numbers: &IndexMap<u32, u64>, queue: &mut DueQueue<u32>)
    requires { AreNoted numbers.now.entries queue.old.items }
    ensures noted { AreNoted numbers.now.entries queue.new.items }
    ensures few { ArePresent numbers.now.entries queue.new.items
        ⊎ (length queue.new.items ≤ 4 * length numbers.now.entries + 67) }
{
    if queue.has_outgrown(numbers.len()) {
        retain_present(numbers, queue);
    }
    queue.give_back();
}

/// Keeps the present numbers alone.
fn retain_present(numbers: &IndexMap<u32, u64>, queue: &mut DueQueue<u32>)
    requires { AreNoted numbers.now.entries queue.old.items }
    ensures noted { AreNoted numbers.now.entries queue.new.items }
    ensures present { ArePresent numbers.now.entries queue.new.items }
{
    queue.retain(|due| number_of(numbers, due.item) == Some(due.number));
}

/// The next root whose number is at most `now`, or none. Numbers that roots had before, and that
/// are at most `now`, are dropped.
pub(crate) fn next_root(
    numbers: &IndexMap<u32, u64>,
    queue: &mut DueQueue<u32>,
    now: u64,
) -> Option<u32>
    requires { AreNoted numbers.now.entries queue.old.items }
    ensures due { IfSome result (IsDueBy numbers.now.entries now) }
    ensures others { IfSome result (λ root. AreNotedBut root numbers.now.entries queue.new.items) }
    ensures later { IfNone result (AllLater numbers.now.entries now) }
    ensures noted { IfNone result (AreNoted numbers.now.entries queue.new.items) }
{
    while let Some(next) = queue.next_due(now) {
        if number_of(numbers, next.item) == Some(next.number) {
            return Some(next.item);
        }
    }
    None
}
