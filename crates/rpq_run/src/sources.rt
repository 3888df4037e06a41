//! The sources of the streams, as a run leaves them.

ghost use Rattle.std.specs.Prelude.{◌≡◌, ◌≤◌, ◌⊎◌, [], length};
ghost use Rattle.std.specs.Vec.{vec_capacity};
ghost use Rattle.saved_window.specs.Then.{count_of};
ghost use Rattle.rpq_run.specs.Sources.{stream_sources};

use rpq_io::Source;
use saved_window::{Prefix, Then};

/// The source of the saved window, if one was read before the first stream, and the sources of the
/// streams' own files, which are put into an empty list that has room for them.
pub fn parted<S: Source + Drop, P: Prefix>(
    sources: Vec<Then<S, P>>,
    mut own: Vec<S>,
) -> (Option<S>, Vec<S>)
    requires empty { own.items ≡ [] }
    requires room { length sources.items ≤ vec_capacity own }
    requires some { 1 ≤ length sources.items }
    requires alone { P.COUNT ≡ 0 ⊎ (length sources.items ≡ 1) }
    ensures parts { stream_sources result.0 result.1.items ≡ sources.items }
    ensures from { count_of result.0 ≡ P.COUNT }
{
    let mut sources = sources.into_iter();
    let Some(source) = sources.next() else {
        unreachable!()
    };
    let (from, source) = source.parts();
    own.push_reserved(source);
    for source in sources {
        let (_none, source) = source.parts();
        own.push_reserved(source);
    }
    (from, own)
}
