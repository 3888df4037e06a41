//! The map.

ghost use Rattle.std.specs.Prelude.{◌≡◌, [], IsSome, Some, IfOk, OnOk, OnErr};
ghost use Rattle.std.specs.BTreeMap.{insert_entry, is_at};
ghost use Rattle.std.specs.List.Sorted.{IsStrictlySortedBy};
ghost use Rattle.std.specs.Map.{keys_of, lookup, remove_entry};
ghost use Rattle.std.specs.Option.{option_copied};
ghost use Rattle.shared_map.specs.Chunks.{entries_of};
ghost use Rattle.std.specs.Borrow.{sem};
ghost use Rattle.shared_map.specs.LendsEntry.{lends_entry};

use crate::chunk::Chunk;
use crate::list::{chunk_of, insert, remove, shared};
use rpq_base::{Memory, TryClone};
use std::alloc::Global;
use std::marker::Model;
use std::sync::Arc;

/// Keys with their values, in the order of the keys.
///
/// Contracts see the list of the entries.
#[derive(Debug, Drop)]
pub struct SharedMap<K: Ord + TryClone, V: TryClone> {
    alloc: Global,
    chunks: Vec<Arc<Chunk<K, V>>>,
}

impl<K: Ord + TryClone, V: TryClone> Model for SharedMap<K, V> {
    ghost use Rattle.std.specs.Prelude.{List};
    ghost use Rattle.std.specs.List.Sorted.{IsStrictlySortedBy};
    ghost use Rattle.std.specs.Map.{keys_of};
    ghost use Rattle.shared_map.specs.Chunks.{entries_of};

    ghost Value = { List (K × V) };

    ghost view = { λ map. entries_of map.chunks.items };

    ghost invariant = { λ map. IsStrictlySortedBy K.cmp (keys_of (entries_of map.chunks.items)) };
}

impl<K: Ord + TryClone, V: TryClone> SharedMap<K, V> {
    /// No entries. Takes no memory.
    pub fn new(alloc: Global) -> SharedMap<K, V>
        ensures { result ≡ [] }
    {
        SharedMap {
            alloc,
            chunks: Vec::new(alloc),
        }
    }

    /// The value of a key, if it has one.
    ///
    /// The time grows with the logarithm of the number of entries.
    pub fn get(&self, key: &K) -> Option<&V>
        ensures value { option_copied result ≡ lookup (is_at (K.cmp key.now)) self.now }
        ensures sorted { IsStrictlySortedBy K.cmp (keys_of self.now) }
    {
        if self.chunks.is_empty() {
            return None;
        }
        let place = chunk_of(&self.chunks, key);
        self.chunks[place].get(key)
    }

    /// The value of a key that has one, to be changed. Takes memory only where its chunk is shared.
    pub fn get_mut(&mut self, key: &K) -> Result<&mut V, Memory>
        requires { IsSome (lookup (is_at (K.cmp key.now)) self.old) }
        ensures* writes_back { sem 𝓛 (lends_entry K.row V.row K.Ord self.entry
            (is_at (K.cmp key.now)) result) }
        ensures value { IfOk result (λ value.
            Some value.now ≡ lookup (is_at (K.cmp key.now)) self.old) }
    {
        let place = chunk_of(&self.chunks, key);
        match Arc::make_mut(&mut self.chunks[place]) {
            Ok(chunk) => Ok(chunk.value_mut(key)),
            Err(refused) => Err(Memory::from(refused)),
        }
    }

    /// The entries in order, chunk by chunk.
    pub fn chunks(&self) -> &[Arc<Chunk<K, V>>]
        ensures entries { entries_of result.now ≡ self.now }
        ensures sorted { IsStrictlySortedBy K.cmp (keys_of self.now) }
    {
        &self.chunks
    }

    /// An equal map, which shares all entries with this one. Takes a step for each chunk.
    pub fn share(&self) -> Result<SharedMap<K, V>, Memory>
        ensures { IfOk result (λ map. map ≡ self.now) }
    {
        let chunks = shared(self.alloc, &self.chunks)?;
        Ok(SharedMap {
            alloc: self.alloc,
            chunks,
        })
    }

    /// Gives a key this value, and answers the one that it had.
    ///
    /// Makes the key's chunk anew where it is shared, and splits it where it is full.
    pub fn insert(&mut self, key: K, value: V) -> Result<Option<V>, Memory>
        ensures old { IfOk result (λ old. old ≡ lookup (is_at (K.cmp key)) self.old) }
        ensures entries { OnOk result (self.new ≡ insert_entry K.cmp self.old key value) }
        ensures unchanged { OnErr result (self.new ≡ self.old) }
    {
        insert(self.alloc, &mut self.chunks, key, value)
    }

    /// Takes a key's entry out, and answers its value, if it has one.
    ///
    /// Takes memory only where the key's chunk is shared, or, for a copy of the value, where it has
    /// no other entry.
    pub fn remove(&mut self, key: &K) -> Result<Option<V>, Memory>
        ensures old { IfOk result (λ old. old ≡ lookup (is_at (K.cmp key.now)) self.old) }
        ensures entries { OnOk result
            (self.new ≡ remove_entry (is_at (K.cmp key.now)) self.old) }
        ensures unchanged { OnErr result (self.new ≡ self.old) }
    {
        remove(&mut self.chunks, key)
    }
}
