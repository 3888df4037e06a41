//! The classes of states that accept the same words, each told by its least state.

ghost use Rattle.std.specs.Prelude.{◌≡◌, ◌≢◌, ◌<◌, Err, IfOk, Some, length, map, true, false};
ghost use Rattle.dfa_table.specs.Discovery.{AreRows};
ghost use Rattle.dfa_table.specs.declared.discovery.DiscoveryFault.{DiscoveryFault};
ghost use Rattle.minimal_dfa.specs.Classes.{AcceptSame, AreTold, StandsFor, LeadsToClass, class_graph};

use dfa_table::discovery::{Discovery, DiscoveryFault, Walk, discover};
use state_pairs::PairTable;
use std::alloc::Global;

/// The greatest number of states other than the start.
const MAX_CLASSES: u32 = 512;

/// Whether both states accept the same words.
fn is_same(pairs: &PairTable<'_>, first: u32, second: u32) -> bool
    requires above_first { 0 < first }
    requires above_second { 0 < second }
    requires first { first < length pairs.now.rows }
    requires second { second < length pairs.now.rows }
    ensures same { result ≡ true → AcceptSame pairs.now first (Some second) }
    ensures told { result ≡ false → AreTold pairs.now first (Some second) }
{
    !pairs.has_extra_word(Some(first), second) && !pairs.has_extra_word(Some(second), first)
}

/// The least state, other than the start, that accepts the same words.
fn least_same(pairs: &PairTable<'_>, state: u32) -> u32
    requires above { 0 < state }
    requires below { state < length pairs.now.rows }
    ensures { StandsFor pairs.now (Some state) result }
{
    for other in 1..state {
        if is_same(pairs, other, state) {
            return other;
        }
    }
    state
}

/// The state that stands for this one, or none where it accepts no word.
fn class_of(pairs: &PairTable<'_>, state: u32) -> Option<u32>
    requires above { 0 < state }
    requires below { state < length pairs.now.rows }
    ensures { LeadsToClass pairs.now (Some state) result }
{
    if pairs.has_extra_word(None, state) {
        Some(least_same(pairs, state))
    } else {
        None
    }
}

/// The graph of the classes, which a walk numbers.
#[derive(Drop)]
struct Classes<'a> {
    pairs: &'a PairTable<'a>,
}

impl<'a> Walk for Classes<'a> {
    ghost graph = { λ classes. class_graph classes.pairs.now };

    ghost can_step = { λ _. Unit {0} };

    fn label_count(&self) -> u32 {
        let pairs = self.pairs;
        pairs.dfa().labels().len() as u32
    }

    fn open(&self, node: u64) -> u64 {
        node
    }

    fn step(&self, front: u64, label: u32) -> Option<u64> {
        let pairs = self.pairs;
        let dfa = pairs.dfa();
        if front >= dfa.states() as u64 {
            return None;
        }
        match dfa.step(front as u32, label) {
            Some(target) => class_of(pairs, target).map(|class| class as u64),
            None => None,
        }
    }
}

/// The classes that steps from the start lead to, in the order of their discovery, and the rows of
/// the start and of these. There are fewer than states, so they are never too many.
pub fn find_classes(alloc: Global, pairs: &PairTable<'_>) -> Result<Discovery, DiscoveryFault>
    ensures rows { IfOk result (λ found.
        AreRows (class_graph pairs.now) 512 0 found.nodes.items
        (map (λ row. row.items) found.rows.items) (length found.nodes.items)) }
    ensures fits { result ≢ Err DiscoveryFault.Full }
{
    // the number of states is at most 513, with the start
    pairs.dfa().states();
    discover(alloc, &Classes { pairs }, 0, MAX_CLASSES)
}
