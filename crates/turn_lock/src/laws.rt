//! Laws of lines, and of what was seen of them.
ghost use Rattle.turn_lock.specs.Laws.{SeenIsInOrder, OwnLinesAreAll};

use crate::kept::Kept;

/// Of two beginnings of the same lines, one begins the other: what two passes have seen is one
/// history.
pub fn seen_is_in_order<V: Kept>()
    ensures { SeenIsInOrder V.Line }
{}

/// Where each line is by one of the passes, their own lines are as many as all lines.
pub fn own_lines_are_all<V: Kept>()
    ensures { OwnLinesAreAll V.author }
{}
