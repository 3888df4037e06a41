//! A change of the chosen ones among some sources.

ghost use Rattle.std.specs.Prelude.{◌≡◌, ◌*◌, ◌/◌, ◌+◌, ◌<◌, ◌≤◌, length, nat_eq, filter_map, All, OnOk};
ghost use Rattle.std.specs.List.{IsDistinct};
ghost use Rattle.source_table.specs.Parts.{AreSound, CanTry, CanTryOne, Tries, TriesOne};
ghost use Rattle.source_table.specs.Places.{place_of};

use crate::places::SourcePlaces;
use rpq_base::{Memory, Workers};
use run_context::{Context, Gate, Who};
use source_tree::{Change, ProductGraph, SourceTree};
use std::thread;
use std::thread::Threads;
use tree_insert::Search;

/// Makes the list that of the places of these roots, of those that have one.
pub(crate) fn choose(
    places: &SourcePlaces,
    roots: &[u32],
    chosen: &mut Vec<usize>,
) -> Result<(), Memory>
    ensures { OnOk result
        (chosen.new.items ≡ filter_map (place_of places.now.marks.items) roots.now) }
{
    chosen.clear();
    for root in roots {
        if let Some(place) = places.get(*root) {
            chosen.push(place)?;
        }
    }
    Ok(())
}

/// The number of the worker, from 1, whose chunk begins at this place. The chunks have this size,
/// and there are at most 64.
pub(crate) fn worker_of(start: usize, size: usize) -> u32
    requires some { 0 < size }
    requires few { start < 64 * size }
    ensures { result ≡ start / size + 1 }
{
    (start / size) as u32 + 1
}

/// Makes the source at this place take a change, where it stands in the part, which begins at
/// `start`.
fn change_one(
    search: &mut Search,
    place: usize,
    start: usize,
    part: &mut [SourceTree],
    product: &ProductGraph<'_>,
    change: Change,
)
    requires { CanTryOne place start change product.now part.old }
    ensures len { length part.new ≡ length part.old }
    ensures tries { TriesOne place start change product.now part.old part.new }
{
    if place < start {
        return;
    }
    let offset = place - start;
    if offset >= part.len() {
        return;
    }
    // A source for which memory ran out says so afterwards.
    let _ = part[offset].take(search, product, change);
}

/// Makes the chosen sources of a part, which begins at this place, take a change.
fn change_part(
    search: &mut Search,
    chosen: &[usize],
    start: usize,
    part: &mut [SourceTree],
    product: &ProductGraph<'_>,
    change: Change,
)
    requires once { IsDistinct nat_eq chosen.now }
    requires ready { CanTry chosen.now start change product.now part.old }
    ensures { Tries chosen.now start change product.now part.old part.new }
{
    for place in chosen {
        change_one(search, *place, start, part, product, change);
    }
}

/// The size of the chunks for so many workers, which is no greater than it must be.
pub(crate) fn chunk_size(len: usize, workers: Workers) -> usize
    requires { 0 < len }
    ensures some { 0 < result }
    ensures covers { len ≤ 64 * result }
    ensures least { result * workers < len + workers }
{
    len.div_ceil(workers.number() as usize)
}

/// Makes the chosen sources take a change, in chunks of this size, each by a worker that passes the
/// gate first and has a search of its own.
fn change_chunks<R: Threads + Sync, G: Gate>(
    context: &Context<'_, R, G>,
    size: usize,
    chosen: &[usize],
    sources: &mut Vec<SourceTree>,
    product: &ProductGraph<'_>,
    change: Change,
)
    requires some { 0 < size }
    requires covers { length sources.old.items ≤ 64 * size }
    requires once { IsDistinct nat_eq chosen.now }
    requires ready { CanTry chosen.now 0 change product.now sources.old.items }
    ensures len { length sources.new.items ≡ length sources.old.items }
    ensures tries { Tries chosen.now 0 change product.now sources.old.items sources.new.items }
{
    thread::for_each_chunk_mut(
        context.rt,
        sources,
        size,
        &|start: usize, part: &mut [SourceTree]|
            requires { (0 < size) × (start < 64 * size) × IsDistinct nat_eq chosen.now
                × CanTry chosen.now start change product.now part.now }
            ensures { Tries chosen.entry.now start change product.entry.now part.entry.now
                part.exit.now }
        {
            context.gate.pass(Who::Trees(worker_of(start, size)));
            let mut search = Search::new(context.alloc);
            change_part(&mut search, chosen, start, part, product, change);
        },
    );
}

/// Makes the chosen sources take a change, in chunks of this size, each by a worker that passes the
/// gate first. Where one chunk has all sources, it takes the room of this search.
pub(crate) fn change_all<R: Threads + Sync, G: Gate>(
    context: &Context<'_, R, G>,
    search: &mut Search,
    size: usize,
    chosen: &[usize],
    sources: &mut Vec<SourceTree>,
    product: &ProductGraph<'_>,
    change: Change,
)
    requires some { 0 < size }
    requires covers { length sources.old.items ≤ 64 * size }
    requires once { IsDistinct nat_eq chosen.now }
    requires ready { CanTry chosen.now 0 change product.now sources.old.items }
    ensures len { length sources.new.items ≡ length sources.old.items }
    ensures tries { Tries chosen.now 0 change product.now sources.old.items sources.new.items }
{
    if size < sources.len() {
        change_chunks(context, size, chosen, sources, product, change);
    } else {
        context.gate.pass(Who::Trees(1));
        change_part(search, chosen, 0, sources, product, change);
    }
}

/// Finds whether memory ran out for one of the chosen sources.
pub(crate) fn check(sources: &[SourceTree], chosen: &[usize]) -> Result<(), Memory>
    requires { All (λ place. place < length sources.now) chosen.now }
    ensures { OnOk result (AreSound chosen.now sources.now) }
{
    for place in chosen {
        sources[*place].outcome()?;
    }
    Ok(())
}
