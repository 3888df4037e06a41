//! What changed in a table.

ghost use Rattle.std.specs.Prelude.{◌≡◌, ◌++◌, OnOk, map};
ghost use Rattle.wide_search.specs.Lifts.{lift_at};

use delta_tree::NodeId;
use place_table::Gain;
use rpq_base::Memory;

/// A root that was lifted at a place, with the value that it had there before, or none where it had
/// no node.
#[derive(Clone, Copy, Debug, PartialEq, Eq)]
pub struct Lift {
    pub root: u32,
    pub id: NodeId,
    pub before: Option<u64>,
}

/// Adds the lifts of these gains at a place.
pub(crate) fn add_lifts(lifts: &mut Vec<Lift>, id: NodeId, gains: &[Gain]) -> Result<(), Memory>
    ensures { OnOk result (lifts.new.items ≡ lifts.old.items ++ map (lift_at id) gains.now) }
{
    for gain in gains {
        lifts.push(Lift {
            root: gain.root,
            id,
            before: gain.before,
        })?;
    }
    Ok(())
}
