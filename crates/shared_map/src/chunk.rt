//! Some entries of a map that stand next to each other.

ghost use Rattle.std.specs.Prelude.{◌≡◌, ◌<◌, ◌++◌, ◌∷◌, [], length, slice_get, slice_index_or};
ghost use Rattle.std.specs.Prelude.{None, Some, IfNone, IfSome, IsSome, IsTrue, IfOk, OnOk, OnErr};
ghost use Rattle.std.specs.BTreeMap.{insert_entry, is_at};
ghost use Rattle.std.specs.List.Sorted.{IsBinarySearchResult, IsSearchInRange, IsStrictlySortedBy};
ghost use Rattle.std.specs.declared.cmp.Ordering.TheVariants.{Equal};
ghost use Rattle.std.specs.List.{remove};
ghost use Rattle.std.specs.Map.{keys_of, lookup};
ghost use Rattle.std.specs.Option.{option_copied};
ghost use Rattle.std.specs.Borrow.{sem};
ghost use Rattle.shared_map.specs.Chunks.{IsPlaceOf};
ghost use Rattle.shared_map.specs.Lends.{lends_value};

use rpq_base::{Memory, TryClone};
use std::alloc::{AllocError, Global};
use std::marker::Model;
use std::mem;

/// The most entries that a chunk has.
const MOST: usize = 128;

/// A run of entries, of which there is one at least.
///
/// Contracts see the list of the entries.
#[derive(Debug, Drop)]
pub struct Chunk<K: Ord + TryClone, V: TryClone> {
    alloc: Global,
    entries: Vec<(K, V)>,
}

impl<K: Ord + TryClone, V: TryClone> Model for Chunk<K, V> {
    ghost use Rattle.std.specs.Prelude.{◌<◌, List, length};

    ghost Value = { List (K × V) };

    ghost view = { λ chunk. chunk.entries.items };

    ghost invariant = { λ chunk. 0 < length chunk.entries.items };
}

/// Copies of all the entries, in their order.
fn copies<K: TryClone, V: TryClone>(
    alloc: Global,
    entries: &[(K, V)],
) -> Result<Vec<(K, V)>, Memory>
    ensures { IfOk result (λ copies. copies.items ≡ entries.now) }
{
    let mut copies = Vec::with_capacity(alloc, entries.len())?;
    for entry in entries {
        copies.push((entry.0.copy()?, entry.1.copy()?))?;
    }
    Ok(copies)
}

impl<K: Ord + TryClone, V: TryClone> Chunk<K, V> {
    /// One entry alone.
    pub(crate) fn one(alloc: Global, key: K, value: V) -> Result<Chunk<K, V>, Memory>
        ensures { IfOk result (λ chunk. chunk ≡ (key, value) ∷ []) }
    {
        let mut entries = Vec::new(alloc);
        entries.push((key, value))?;
        Ok(Chunk { alloc, entries })
    }

    /// Copies of these entries.
    fn of(alloc: Global, entries: &[(K, V)]) -> Result<Chunk<K, V>, Memory>
        requires { 0 < length entries.now }
        ensures { IfOk result (λ chunk. chunk ≡ entries.now) }
    {
        let entries = copies(alloc, entries)?;
        Ok(Chunk { alloc, entries })
    }

    /// The entries, in order.
    pub fn entries(&self) -> &[(K, V)]
        ensures { result.now ≡ self.now }
    {
        &self.entries
    }

    /// The number of entries.
    pub(crate) fn len(&self) -> usize
        ensures count { result ≡ length self.now }
        ensures some { 0 < length self.now }
    {
        self.entries.len()
    }

    /// Whether another entry finds no room.
    pub(crate) fn is_full(&self) -> bool
        ensures { IsTrue result → 1 < length self.now }
    {
        self.entries.len() >= MOST
    }

    /// The key of the first entry.
    pub(crate) fn first(&self) -> &K
        ensures { slice_get (keys_of self.now) 0 ≡ Some result.now }
    {
        &self.entries[0].0
    }

    /// The place of the key's entry, or else the place where it would stand.
    fn place_of(&self, key: &K) -> Result<usize, usize>
        ensures within { IsSearchInRange result (length self.now) }
        ensures place { IsBinarySearchResult (λ entry. K.cmp entry.0 key.now) self.now result }
    {
        self.entries.binary_search_by(|entry| entry.0.cmp(key))
    }

    /// The value of a key, if it has one.
    pub(crate) fn get(&self, key: &K) -> Option<&V>
        requires { IsStrictlySortedBy K.cmp (keys_of self.now) }
        ensures { option_copied result ≡ lookup (is_at (K.cmp key.now)) self.now }
    {
        match self.place_of(key) {
            Ok(place) => Some(&self.entries[place].1),
            Err(_) => None,
        }
    }

    /// The place of a key's entry, if it has one.
    pub(crate) fn find(&self, key: &K) -> Option<usize>
        requires { IsStrictlySortedBy K.cmp (keys_of self.now) }
        ensures place { IfSome result (λ place. IsPlaceOf K.cmp key.now self.now place) }
        ensures none { IfNone result (lookup (is_at (K.cmp key.now)) self.now ≡ None) }
    {
        match self.place_of(key) {
            Ok(place) => Some(place),
            Err(_) => None,
        }
    }

    /// Gives a key this value, and answers the one that it had. A new key stands in its place.
    pub(crate) fn insert(&mut self, key: K, value: V) -> Result<Option<V>, Memory>
        requires { IsStrictlySortedBy K.cmp (keys_of self.old) }
        ensures old { IfOk result (λ old. old ≡ lookup (is_at (K.cmp key)) self.old) }
        ensures entries { OnOk result (self.new ≡ insert_entry K.cmp self.old key value) }
        ensures unchanged { OnErr result (self.new ≡ self.old) }
    {
        match self.place_of(&key) {
            Ok(place) => Ok(Some(mem::replace(&mut self.entries[place].1, value))),
            Err(place) => {
                self.entries.insert(place, (key, value))?;
                Ok(None)
            }
        }
    }

    /// Takes out the entry at a place, and answers its value. There is another entry too.
    pub(crate) fn remove(&mut self, place: usize) -> V
        requires within { place < length self.old }
        requires another { 1 < length self.old }
        ensures entries { self.new ≡ remove self.old place }
        ensures value { (entry : K × V) → result ≡ (slice_index_or self.old place entry).1 }
    {
        self.entries.remove(place).1
    }

    /// The place of a key that has a value.
    fn place_there(&self, key: &K) -> usize
        requires sorted { IsStrictlySortedBy K.cmp (keys_of self.now) }
        requires there { IsSome (lookup (is_at (K.cmp key.now)) self.now) }
        ensures within { result < length self.now }
        ensures place { (entry : K × V) →
            K.cmp (slice_index_or self.now result entry).0 key.now ≡ Equal }
    {
        match self.place_of(key) {
            Ok(place) => place,
            Err(place) => place,
        }
    }

    /// The value of a key that has one, to be changed.
    pub(crate) fn value_mut(&mut self, key: &K) -> &mut V
        requires sorted { IsStrictlySortedBy K.cmp (keys_of self.old) }
        requires there { IsSome (lookup (is_at (K.cmp key.now)) self.old) }
        ensures* writes_back { sem 𝓛 (lends_value K.row V.row K.Ord self.entry
            (is_at (K.cmp key.now)) result) }
        ensures value { Some result.now ≡ lookup (is_at (K.cmp key.now)) self.old }
    {
        let place = self.place_there(key);
        &mut self.entries[place].1
    }

    /// The entries before the middle, and those behind it.
    pub(crate) fn halves(&self) -> Result<(Chunk<K, V>, Chunk<K, V>), Memory>
        requires { 1 < length self.now }
        ensures { IfOk result (λ halves. halves.0 ++ halves.1 ≡ self.now) }
    {
        let (left, right) = self.entries.split_at(self.entries.len() / 2);
        Ok((Chunk::of(self.alloc, left)?, Chunk::of(self.alloc, right)?))
    }
}

// A chunk that is shared is cloned before it is changed.
impl<K: Ord + TryClone, V: TryClone> Clone for Chunk<K, V> {
    ghost is_clone = { λ source clone. clone ≡ source };

    fn clone(&self) -> Result<Chunk<K, V>, AllocError> {
        match Chunk::of(self.alloc, &self.entries) {
            Ok(clone) => Ok(clone),
            Err(memory) => Err(AllocError::from(memory)),
        }
    }
}
