//! The events between two lists of answers.

ghost use Rattle.std.specs.Prelude.{◌≡◌, ◌≤◌, ◌++◌, length, drop, take, map, OnOk, IfOk};
ghost use Rattle.std.specs.List.{list_any, prefix_len};
ghost use Rattle.std.specs.List.Sorted.{IsStrictlySortedBy};
ghost use Rattle.std.specs.Ordering.{is_lt};
ghost use Rattle.rpq_base.specs.Order.{pair_cmp};
ghost use Rattle.rpq_base.specs.Same.{same_pair};
ghost use Rattle.rpq_model.specs.Events.{event, without, changes};

use rpq_base::{Event, Memory, Pair, TryClone};
use std::alloc::Global;

/// How many of the pairs, from the front on, come before this one.
#[tactic(auto, using(crate::proofs::SideBySide::prefix_short))]
fn count_before(pairs: &[Pair], least: &Pair) -> usize
    ensures count { result ≡ prefix_len (λ pair. is_lt (pair_cmp pair least.now)) pairs.now }
    ensures within { result ≤ length pairs.now }
{
    pairs.iter().take_while(|pair| **pair < *least).count()
}

/// The pairs from the first one on that doesn't come before this one.
fn not_before<'a>(pairs: &'a [Pair], least: &Pair) -> &'a [Pair]
    ensures { result.now ≡
        drop (prefix_len (λ pair. is_lt (pair_cmp pair least.now)) pairs.now) pairs.now }
{
    &pairs[count_before(pairs, least)..]
}

/// Whether the pairs begin with this one.
fn begin_with(pairs: &[Pair], pair: &Pair) -> bool
    ensures { result ≡ list_any (λ first. same_pair first pair.now) (take 1 pairs.now) }
{
    match pairs.first() {
        Some(first) => first == pair,
        None => false,
    }
}

/// Adds an event for each pair that isn't among the others, in order. Goes through both lists once.
fn push_events(
    events: &mut Vec<Event>,
    query: u32,
    added: bool,
    pairs: &[Pair],
    others: &[Pair],
) -> Result<(), Memory>
    requires pairs { IsStrictlySortedBy pair_cmp pairs.now }
    requires others { IsStrictlySortedBy pair_cmp others.now }
    ensures { OnOk result (events.new.items ≡
        events.old.items ++ map (event query added) (without pairs.now others.now)) }
{
    let mut rest = others;
    for pair in pairs {
        rest = not_before(rest, pair);
        if !begin_with(rest, pair) {
            events.push(Event {
                query,
                added,
                pair: pair.copy()?,
            })?;
        }
    }
    Ok(())
}

/// The events of the query with this number, from its old answers to its new ones: the losses, then
/// the gains. The answers are sorted by source and then target, each once.
///
/// The pairs are copied. The time grows with the number of pairs.
pub fn changes(alloc: Global, query: u32, old: &[Pair], new: &[Pair]) -> Result<Vec<Event>, Memory>
    requires old { IsStrictlySortedBy pair_cmp old.now }
    requires new { IsStrictlySortedBy pair_cmp new.now }
    ensures { IfOk result (λ events. events.items ≡ changes query old.now new.now) }
{
    let mut events = Vec::new(alloc);
    push_events(&mut events, query, false, old, new)?;
    push_events(&mut events, query, true, new, old)?;
    Ok(events)
}
