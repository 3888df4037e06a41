//! Chunks in their order.

ghost use Rattle.std.specs.Prelude.{◌≡◌, ◌<◌, List, length, slice_index_or, IfOk, OnOk, OnErr};
ghost use Rattle.std.specs.Global.{Global as GlobalHeap};
ghost use Rattle.std.specs.declared.sync.Arc.{Arc as Shared};
ghost use Rattle.std.specs.BTreeMap.{insert_entry, is_at};
ghost use Rattle.std.specs.List.Sorted.{IsStrictlySortedBy};
ghost use Rattle.std.specs.Map.{keys_of, lookup, remove_entry};
ghost use Rattle.shared_map.specs.Chunks.{IsChunkOf, entries_of};

use crate::chunk::Chunk;
use rpq_base::{Memory, TryClone};
use std::alloc::Global;
use std::sync::Arc;

/// The place of the chunk in which the key stands or would stand; 0 where there is no chunk.
pub(crate) fn chunk_of<K: Ord + TryClone, V: TryClone>(
    chunks: &[Arc<Chunk<K, V>>],
    key: &K,
) -> usize
    requires { IsStrictlySortedBy K.cmp (keys_of (entries_of chunks.now)) }
    ensures place { IsChunkOf K.cmp key.now chunks.now result }
    ensures within { 0 < length chunks.now → result < length chunks.now }
{
    let mut low = 0;
    let mut high = chunks.len();
    while high - low > 1 {
        let middle = low + (high - low) / 2;
        if key < chunks[middle].first() {
            high = middle;
        } else {
            low = middle;
        }
    }
    low
}

/// The same chunks, which both lists share.
pub(crate) fn shared<K: Ord + TryClone, V: TryClone>(
    alloc: Global,
    chunks: &[Arc<Chunk<K, V>>],
) -> Result<Vec<Arc<Chunk<K, V>>>, Memory>
    ensures { IfOk result (λ shared. entries_of shared.items ≡ entries_of chunks.now) }
{
    let mut shared = Vec::with_capacity(alloc, chunks.len())?;
    for chunk in chunks {
        shared.push(Arc::try_clone(chunk)?)?;
    }
    Ok(shared)
}

/// Puts two halves in the place of a chunk.
fn split<K: Ord + TryClone, V: TryClone>(
    alloc: Global,
    chunks: &mut Vec<Arc<Chunk<K, V>>>,
    place: usize,
) -> Result<(), Memory>
    requires within { place < length chunks.old.items }
    requires another { (default : Shared (List (K × V)) GlobalHeap) →
        1 < length (slice_index_or chunks.old.items place default).value }
    ensures same { entries_of chunks.new.items ≡ entries_of chunks.old.items }
    ensures some { 0 < length chunks.new.items }
{
    let (left, right) = chunks[place].halves()?;
    let left = Arc::new(alloc, left)?;
    let right = Arc::new(alloc, right)?;
    chunks.insert(place + 1, right)?;
    chunks[place] = left;
    Ok(())
}

/// The place of the chunk of a key, which is split first where it is full.
fn room_for<K: Ord + TryClone, V: TryClone>(
    alloc: Global,
    chunks: &mut Vec<Arc<Chunk<K, V>>>,
    key: &K,
) -> Result<usize, Memory>
    requires some { 0 < length chunks.old.items }
    requires sorted { IsStrictlySortedBy K.cmp (keys_of (entries_of chunks.old.items)) }
    ensures same { entries_of chunks.new.items ≡ entries_of chunks.old.items }
    ensures place { IfOk result (λ place. IsChunkOf K.cmp key.now chunks.new.items place) }
    ensures within { IfOk result (λ place. place < length chunks.new.items) }
{
    let place = chunk_of(chunks, key);
    if !chunks[place].is_full() {
        return Ok(place);
    }
    split(alloc, chunks, place)?;
    Ok(chunk_of(chunks, key))
}

/// Gives a key a value in a chunk, which is made anew where it is shared.
fn insert_in<K: Ord + TryClone, V: TryClone>(
    chunk: &mut Arc<Chunk<K, V>>,
    key: K,
    value: V,
) -> Result<Option<V>, Memory>
    requires { IsStrictlySortedBy K.cmp (keys_of chunk.old.value) }
    ensures old { IfOk result (λ old. old ≡ lookup (is_at (K.cmp key)) chunk.old.value) }
    ensures entries { OnOk result (chunk.new.value ≡ insert_entry K.cmp chunk.old.value key value) }
    ensures unchanged { OnErr result (chunk.new.value ≡ chunk.old.value) }
{
    Arc::make_mut(chunk)?.insert(key, value)
}

/// Takes a key's entry out of a chunk, which has another one too and is made anew where it is
/// shared. Answers the value, if the key has one.
fn remove_from<K: Ord + TryClone, V: TryClone>(
    chunk: &mut Arc<Chunk<K, V>>,
    key: &K,
) -> Result<Option<V>, Memory>
    requires sorted { IsStrictlySortedBy K.cmp (keys_of chunk.old.value) }
    requires another { 1 < length chunk.old.value }
    ensures old { IfOk result (λ old. old ≡ lookup (is_at (K.cmp key.now)) chunk.old.value) }
    ensures entries { OnOk result
        (chunk.new.value ≡ remove_entry (is_at (K.cmp key.now)) chunk.old.value) }
    ensures unchanged { OnErr result (chunk.new.value ≡ chunk.old.value) }
{
    match chunk.find(key) {
        Some(place) => Ok(Some(Arc::make_mut(chunk)?.remove(place))),
        None => Ok(None),
    }
}

/// Gives a key a value in its chunk, which is at this place.
fn put<K: Ord + TryClone, V: TryClone>(
    chunks: &mut Vec<Arc<Chunk<K, V>>>,
    place: usize,
    key: K,
    value: V,
) -> Result<Option<V>, Memory>
    requires within { place < length chunks.old.items }
    requires place { IsChunkOf K.cmp key chunks.old.items place }
    requires sorted { IsStrictlySortedBy K.cmp (keys_of (entries_of chunks.old.items)) }
    ensures old { IfOk result (λ old.
        old ≡ lookup (is_at (K.cmp key)) (entries_of chunks.old.items)) }
    ensures entries { OnOk result (entries_of chunks.new.items
        ≡ insert_entry K.cmp (entries_of chunks.old.items) key value) }
    ensures unchanged { OnErr result (entries_of chunks.new.items ≡ entries_of chunks.old.items) }
{
    insert_in(&mut chunks[place], key, value)
}

/// Takes a key's entry out of its chunk, and answers its value, if it has one. An emptied chunk
/// goes away.
fn take<K: Ord + TryClone, V: TryClone>(
    chunks: &mut Vec<Arc<Chunk<K, V>>>,
    key: &K,
) -> Result<Option<V>, Memory>
    requires some { 0 < length chunks.old.items }
    requires sorted { IsStrictlySortedBy K.cmp (keys_of (entries_of chunks.old.items)) }
    ensures old { IfOk result (λ old.
        old ≡ lookup (is_at (K.cmp key.now)) (entries_of chunks.old.items)) }
    ensures entries { OnOk result (entries_of chunks.new.items
        ≡ remove_entry (is_at (K.cmp key.now)) (entries_of chunks.old.items)) }
    ensures unchanged { OnErr result (entries_of chunks.new.items ≡ entries_of chunks.old.items) }
{
    let place = chunk_of(chunks, key);
    if chunks[place].len() > 1 {
        return remove_from(&mut chunks[place], key);
    }
    let old = match chunks[place].get(key) {
        Some(value) => value.copy()?,
        None => return Ok(None),
    };
    chunks.remove(place);
    Ok(Some(old))
}

/// Gives a key a value, and answers the one that it had. A full chunk is split first.
pub(crate) fn insert<K: Ord + TryClone, V: TryClone>(
    alloc: Global,
    chunks: &mut Vec<Arc<Chunk<K, V>>>,
    key: K,
    value: V,
) -> Result<Option<V>, Memory>
    requires { IsStrictlySortedBy K.cmp (keys_of (entries_of chunks.old.items)) }
    ensures old { IfOk result (λ old.
        old ≡ lookup (is_at (K.cmp key)) (entries_of chunks.old.items)) }
    ensures entries { OnOk result (entries_of chunks.new.items
        ≡ insert_entry K.cmp (entries_of chunks.old.items) key value) }
    ensures unchanged { OnErr result (entries_of chunks.new.items ≡ entries_of chunks.old.items) }
{
    if chunks.is_empty() {
        let chunk = Chunk::one(alloc, key, value)?;
        chunks.push(Arc::new(alloc, chunk)?)?;
        return Ok(None);
    }
    let place = room_for(alloc, chunks, &key)?;
    put(chunks, place, key, value)
}

/// Takes a key's entry out, and answers its value, if it has one.
pub(crate) fn remove<K: Ord + TryClone, V: TryClone>(
    chunks: &mut Vec<Arc<Chunk<K, V>>>,
    key: &K,
) -> Result<Option<V>, Memory>
    requires { IsStrictlySortedBy K.cmp (keys_of (entries_of chunks.old.items)) }
    ensures old { IfOk result (λ old.
        old ≡ lookup (is_at (K.cmp key.now)) (entries_of chunks.old.items)) }
    ensures entries { OnOk result (entries_of chunks.new.items
        ≡ remove_entry (is_at (K.cmp key.now)) (entries_of chunks.old.items)) }
    ensures unchanged { OnErr result (entries_of chunks.new.items ≡ entries_of chunks.old.items) }
{
    if chunks.is_empty() {
        return Ok(None);
    }
    take(chunks, key)
}
