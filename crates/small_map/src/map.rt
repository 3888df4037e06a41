//! A map of few entries or many.

ghost use Rattle.std.specs.Prelude.{◌≡◌, ◌<◌, ◌++◌, ◌∷◌, [], length, OnOk, OnErr, None, Some};
ghost use Rattle.std.specs.Prelude.{slice_get, slice_set};
ghost use Rattle.std.specs.List.{IsDistinct, swap_remove};
ghost use Rattle.std.specs.Map.{keys_of, lookup};
ghost use Rattle.small_map.specs.Places.{IsPlace};

use crate::places::{KeyPlaces, forget, look_up, note, scan};
use crate::room::{give_back, make_room};
use std::alloc::{AllocError, Global};
use std::hash::Hash;
use std::marker::Model;

/// Keys with their values.
///
/// Contracts see the list of the entries, in which each key stands once.
#[derive(Drop)]
pub struct SmallMap<K: Eq + Hash + Copy, V: Copy> {
    alloc: Global,
    entries: Vec<(K, V)>,
    places: KeyPlaces<K>,
}

impl<K: Eq + Hash + Copy, V: Copy> Model for SmallMap<K, V> {
    ghost use Rattle.std.specs.Prelude.{List};
    ghost use Rattle.std.specs.List.{IsDistinct};
    ghost use Rattle.std.specs.Map.{keys_of};
    ghost use Rattle.std.specs.Option.{IfSome};
    ghost use Rattle.small_map.specs.Places.{ArePlaced};

    ghost Value = { List (K × V) };

    ghost view = { λ map. map.entries.items };

    ghost invariant = { λ map. IsDistinct K.eq (keys_of map.entries.items)
        × IfSome map.places (λ places. ArePlaced K.eq map.entries.items places.value.entries) };
}

impl<K: Eq + Hash + Copy, V: Copy> SmallMap<K, V> {
    /// A map without entries, which takes no memory.
    pub fn new(alloc: Global) -> SmallMap<K, V>
        ensures { result ≡ [] }
    {
        SmallMap {
            alloc,
            entries: Vec::new(alloc),
            places: None,
        }
    }

    /// The number of entries.
    pub fn len(&self) -> usize
        ensures count { result ≡ length self.now }
        ensures once { IsDistinct K.eq (keys_of self.now) }
    {
        self.entries.len()
    }

    /// The entry at this place.
    pub fn at(&self, index: usize) -> (K, V)
        requires { index < length self.now }
        ensures { slice_get self.now index ≡ Some result }
    {
        self.entries[index]
    }

    /// The place of the key's entry, or none where the key has no value.
    pub fn place_of(&self, key: &K) -> Option<usize>
        ensures place { IsPlace K.eq self.now key.now result }
        ensures once { IsDistinct K.eq (keys_of self.now) }
    {
        match &self.places {
            Some(places) => look_up(places, &self.entries, key),
            None => scan(&self.entries, key),
        }
    }

    /// Gives the key of this place another value.
    pub fn set_at(&mut self, place: usize, value: V)
        requires { place < length self.old }
        ensures { (entry : K × V) → slice_get self.old place ≡ Some entry →
            self.new ≡ slice_set self.old place (entry.0, value) }
    {
        self.entries[place].1 = value;
    }

    /// Gives a key that has none a value, behind the others. The only error is out of memory,
    /// after which the map is as before.
    pub fn push(&mut self, key: K, value: V) -> Result<(), AllocError>
        requires { lookup (K.eq key) self.old ≡ None }
        ensures pushed { OnOk result (self.new ≡ self.old ++ (key, value) ∷ []) }
        ensures unchanged { OnErr result (self.new ≡ self.old) }
    {
        make_room(&mut self.entries)?;
        note(self.alloc, &mut self.places, &self.entries, key)?;
        self.entries.push_reserved((key, value));
        Ok(())
    }

    /// Takes the entry of this place out. The last entry comes into its place.
    pub fn remove_at(&mut self, place: usize)
        requires { place < length self.old }
        ensures { (entry : K × V) → slice_get self.old place ≡ Some entry →
            self.new ≡ swap_remove self.old place entry }
    {
        forget(&mut self.places, &self.entries, place);
        self.entries.swap_remove(place);
        give_back(&mut self.entries);
    }
}
