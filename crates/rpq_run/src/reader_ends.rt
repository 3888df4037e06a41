//! How the readers beside a run ended.

ghost use Rattle.std.specs.Prelude.{◌≡◌, ◌≤◌, [], length};
ghost use Rattle.std.specs.Vec.{vec_capacity};
ghost use Rattle.rpq_run.specs.Outcome.{ends_of};

use live_asks::{ReaderEnd, ReaderOutcome};

/// How these readers ended, in order, in an empty list that has room for it.
pub fn ends_of<S, K>(readers: &[ReaderOutcome<S, K>], mut ends: Vec<ReaderEnd>) -> Vec<ReaderEnd>
    requires empty { ends.items ≡ [] }
    requires room { length readers.now ≤ vec_capacity ends }
    ensures { result.items ≡ ends_of readers.now }
{
    for one in readers {
        ends.push_reserved(one.end);
    }
    ends
}
