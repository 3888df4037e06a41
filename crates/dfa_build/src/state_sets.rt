//! The sets of positions that are states, and the steps between them.

ghost use Rattle.std.specs.Prelude.{◌≡◌, ◌≢◌, ℕ, ◌+◌, ◌<◌, ◌≤◌, ◌↔◌, length, map, false, IsTrue, slice_index_or, IfOk};
ghost use Rattle.dfa_table.specs.Discovery.{node_at};
ghost use Rattle.dfa_build.specs.PositionSet.{has};
ghost use Rattle.dfa_build.specs.StateSets.{IsAfter, AreRows, HasTooMany, set_of, sets_of, set_graph};

use crate::fault::BuildFault;
use crate::position_set::PositionSet;
use crate::transitions::PositionSets;
use dfa_table::discovery::{Discovery, Walk, discover};
use rpq_base::Memory;
use std::alloc::Global;

/// The greatest number of nonempty sets of positions for which an automaton is built.
const MAX_SETS: u32 = 512;

/// The positions that may stand right after one of the set.
fn after(follow: &[PositionSet], set: PositionSet) -> PositionSet
    requires { length follow.now ≤ 64 }
    ensures { IsAfter follow.now set result }
{
    let mut reach = PositionSet::empty();
    for (place, next) in follow.iter().enumerate() {
        reach = reach.union_if(*next, set.contains(place as u32));
    }
    reach
}

impl Walk for PositionSets {
    ghost graph = { λ sets. set_graph sets.follow.items sets.masks.items };

    ghost can_step = { λ sets. (length sets.follow.items ≤ 64) × (length sets.masks.items ≤ 64) };

    fn label_count(&self) -> u32 {
        self.masks.len() as u32
    }

    fn open(&self, node: u64) -> u64 {
        after(&self.follow, PositionSet::from_bits(node)).bits()
    }

    fn step(&self, front: u64, label: u32) -> Option<u64> {
        let target = PositionSet::from_bits(front).intersection(self.masks[label as usize]);
        if target.is_empty() {
            None
        } else {
            Some(target.bits())
        }
    }
}

/// The sets that are found from the first positions, as the nodes of a walk, and the rows of the
/// start and of these.
pub fn find_states(alloc: Global, sets: &PositionSets) -> Result<Discovery, BuildFault>
    requires follow { length sets.now.follow.items ≤ 64 }
    requires masks { length sets.now.masks.items ≤ 64 }
    ensures states { IfOk result (λ found.
        AreRows sets.now.follow.items sets.now.masks.items sets.now.first
        (sets_of found.nodes.items) (map (λ row. row.items) found.rows.items)
        (length (sets_of found.nodes.items))) }
    ensures full { result ≡ Err BuildFault.TooManyStates →
        HasTooMany sets.now.follow.items sets.now.masks.items sets.now.first }
    ensures labels { (n : ℕ) → result ≢ Err (BuildFault.TooManyLabels n) }
{
    Ok(discover(alloc, sets, sets.first.bits(), MAX_SETS)?)
}

/// Whether the sets share a member.
fn meets(set: PositionSet, other: PositionSet) -> bool
    ensures { IsTrue result
        ↔ ((position : ℕ) × IsTrue (has set position) × IsTrue (has other position)) }
{
    !set.intersection(other).is_empty()
}

/// For the start and the set of each node whether it is final: whether it has one of the last
/// positions.
pub fn finals_of(alloc: Global, nodes: &[u64], last: PositionSet) -> Result<Vec<bool>, Memory>
    ensures length { IfOk result (λ finals. length finals.items ≡ length nodes.now + 1) }
    ensures start { IfOk result (λ finals. slice_index_or finals.items 0 false ≡ false) }
    ensures sets { IfOk result (λ finals. (place : ℕ) → place < length nodes.now →
        IsTrue (slice_index_or finals.items (place + 1) false)
        ↔ ((position : ℕ) × IsTrue (has (set_of (node_at nodes.now place)) position)
        × IsTrue (has last position))) }
{
    let mut finals = Vec::with_capacity(alloc, nodes.len() + 1)?;
    finals.push(false)?;
    for node in nodes {
        finals.push(meets(PositionSet::from_bits(*node), last))?;
    }
    Ok(finals)
}
