//! Numbers in an order, and the places at which they stand in it.

ghost use Rattle.std.specs.Prelude.{◌<◌, ◌≤◌, ◌^◌, ℕ, length, IfOk, slice_index};
ghost use Rattle.name_table.specs.Ranks.{AreApart, ArePlaces, CountsUp, HasAll, Inverts, Puts};

use rpq_base::Memory;
use std::alloc::Global;

/// Puts the value at this place.
fn put(list: &mut Vec<u32>, place: u32, value: u32)
    requires { place < length list.old.items }
    ensures { Puts list.old.items list.new.items place value }
{
    list[place as usize] = value;
}

/// Puts each place of the list to the place that the list has there.
fn invert(list: &[u32], inverse: &mut Vec<u32>)
    requires within { (place : ℕ) → place < length list.now →
        slice_index list.now place < length inverse.old.items }
    requires few { length list.now < 2 ^ 32 }
    ensures { Inverts (length list.now) list.now inverse.old.items inverse.new.items }
{
    for place in 0..list.len() {
        put(inverse, list[place], place as u32);
    }
}

/// The numbers below `count`, each at its own place.
fn numbers_below(alloc: Global, count: u32) -> Result<Vec<u32>, Memory>
    ensures { IfOk result (λ numbers. CountsUp count numbers.items) }
{
    let mut numbers = Vec::with_capacity(alloc, count as usize)?;
    for number in 0..count {
        numbers.push(number)?;
    }
    Ok(numbers)
}

/// The numbers below `count`: those that have ranks stand first, in the order of their ranks, so
/// that a sort finds them in order.
pub(crate) fn numbers_by_rank(alloc: Global, ranks: &[u32], count: u32) -> Result<Vec<u32>, Memory>
    requires few { length ranks.now ≤ count }
    requires apart { AreApart ranks.now }
    ensures { IfOk result (λ numbers. HasAll count numbers.items) }
{
    let mut numbers = numbers_below(alloc, count)?;
    invert(ranks, &mut numbers);
    Ok(numbers)
}

/// The place of each number in the order.
pub(crate) fn places_in(alloc: Global, order: &[u32]) -> Result<Vec<u32>, Memory>
    requires all { HasAll (length order.now) order.now }
    requires few { length order.now < 2 ^ 32 }
    ensures { IfOk result (λ places. ArePlaces order.now places.items) }
{
    let mut places = vec![in alloc; 0; order.len()]?;
    invert(order, &mut places);
    Ok(places)
}
