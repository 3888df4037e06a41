//! The nodes of all trees, and the order in which they leave.

ghost use Rattle.std.specs.Prelude.{◌≡◌, ◌<◌, ◌++◌, ◌∷◌, [], Some, None, Contains, Ok, OnErr};
ghost use Rattle.std.specs.Option.{MatchOption};
ghost use Rattle.due_queue.specs.Queue.{due};
ghost use Rattle.delta_tree.specs.declared.node.Shift.{Shift as ShiftMade};
ghost use Rattle.place_table.specs.declared.place.Kept.{Kept as KeptMade};
ghost use Rattle.place_table.specs.Kept.{IsThere, KeepSame, PutsAt, kept_at};
ghost use Rattle.place_table.specs.Queue.{AreNoted, IsDueWith, IsNotDue, KeepsNoted, alive};
ghost use Rattle.place_table.specs.Queue.{pending};
ghost use Rattle.place_table.specs.Raises.{HasEnough, RaisesAt};

use crate::place::Kept;
use crate::places::Places;
use crate::spot::Spot;
use delta_tree::Shift;
use due_queue::DueQueue;
use ghost_list::GhostList;
use rpq_base::Memory;

/// Keeps this of a root's node at the place of this number where that has a lesser value, or where
/// the root has none there, and answers the values before and after; none where it has as much
/// already. The only error is [`Memory`], after which the same nodes are kept as before.
pub(crate) fn raise_node(
    places: &mut Places,
    puts: &mut GhostList<Spot>,
    dues: &mut DueQueue<Spot>,
    number: usize,
    spot: Spot,
    kept: Kept,
) -> Result<Option<Shift>, Memory>
    requires noted { AreNoted places.old dues.old.items }
    requires there { IsThere places.old spot.id number }
    ensures raises { (shift : ShiftMade) → result ≡ Ok (Some shift) →
        RaisesAt places.old places.new spot kept shift × (puts.new ≡ puts.old ++ spot ∷ []) }
    ensures stays { result ≡ Ok None → KeepSame places.old places.new × (puts.new ≡ puts.old)
        × HasEnough (kept_at places.old spot.root spot.id) kept.value }
    ensures noted { AreNoted places.new dues.new.items }
    ensures there { IsThere places.new spot.id number }
    ensures same { OnErr result (KeepSame places.old places.new × (puts.new ≡ puts.old)) }
{
    dues.reserve()?;
    let Some(shift) = places.raise_at(number, spot, kept)? else {
        return Ok(None);
    };
    puts.push(&spot);
    match shift.before {
        None => dues.note_reserved(spot, kept.value),
        // A node that is raised stays where it is noted.
        Some(_) => {}
    }
    Ok(Some(shift))
}

/// Takes the node of a root at a place out where its value is at most `now`, and else notes it with
/// its value. Answers the value of the one that it took out.
pub(crate) fn drop_or_note(
    places: &mut Places,
    dues: &mut DueQueue<Spot>,
    spot: Spot,
    now: u64,
) -> Option<u64>
    requires room { 0 < dues.old.room }
    ensures nodes { PutsAt places.old places.new spot.root spot.id
        (alive now (kept_at places.old spot.root spot.id)) }
    ensures pending { pending now dues.new.items ≡ pending now dues.old.items }
    ensures kept { KeepsNoted dues.old.items dues.new.items }
    ensures noted { (kept : KeptMade) → kept_at places.new spot.root spot.id ≡ Some kept →
        Contains dues.new.items (due spot kept.value) }
    ensures dropped { MatchOption result (IsNotDue places.old now spot.root spot.id)
        (IsDueWith places.old now spot.root spot.id) }
{
    match places.get(spot.root, spot.id) {
        Some(kept) if kept.value > now => {
            dues.note_reserved(spot, kept.value);
            None
        }
        Some(kept) => {
            places.take(spot.root, spot.id);
            dues.give_back();
            Some(kept.value)
        }
        None => None,
    }
}
