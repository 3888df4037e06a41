//! Nodes that came or went.

ghost use Rattle.std.specs.Prelude.{◌≡◌};
ghost use Rattle.end_log.specs.Moves.{came, went};

use place_table::Lost;
use wide_search::Lift;

/// A node of a root that came or went: its vertex and its state. They are ordered by the vertex
/// first and then by the root.
#[derive(Clone, Copy, Debug, PartialEq, Eq, PartialOrd, Ord)]
pub(crate) struct Moved {
    pub(crate) vertex: u32,
    pub(crate) root: u32,
    pub(crate) state: u32,
}

/// The node that a lift brought, or none where it raised one.
pub(crate) fn came(lift: Lift) -> Option<Moved>
    ensures { result ≡ came lift }
{
    match lift.before {
        Some(_) => None,
        None => Some(Moved {
            vertex: lift.id.vertex,
            root: lift.root,
            state: lift.id.state,
        }),
    }
}

/// The node that a root lost.
pub(crate) fn went(lost: Lost) -> Option<Moved>
    ensures { result ≡ went lost }
{
    Some(Moved {
        vertex: lost.id.vertex,
        root: lost.root,
        state: lost.id.state,
    })
}
