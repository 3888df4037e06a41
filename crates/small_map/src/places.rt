//! The places of the keys among some entries.

ghost use Rattle.std.specs.Prelude.{◌≡◌, ◌<◌, ◌++◌, ◌∷◌, [], length, position, IfOk, OnOk, OnErr};
ghost use Rattle.std.specs.List.{IsDistinct, swap_remove};
ghost use Rattle.std.specs.Map.{keys_of, lookup};
ghost use Rattle.std.specs.Option.{IfSome};
ghost use Rattle.small_map.specs.Places.{ArePlaced, IsPlace};

use indexmap::IndexMap;
use std::alloc::{AllocError, Global};
use std::hash::Hash;

/// The most entries that are found by going through them.
const FEW: usize = 32;

/// The place of each key, where there are many.
pub(crate) type KeyPlaces<K> = Option<Box<IndexMap<K, usize>>>;

/// The place of the key's entry, found by going through the entries.
pub(crate) fn scan<K: Eq, V>(entries: &[(K, V)], key: &K) -> Option<usize>
    ensures { result ≡ position (λ (entry : K × V). K.eq key.now entry.0) entries.now }
{
    entries.iter().position(|entry| *key == entry.0)
}

/// The place of the key's entry, found by its hash.
pub(crate) fn look_up<K: Eq + Hash, V>(
    places: &IndexMap<K, usize>,
    entries: &[(K, V)],
    key: &K,
) -> Option<usize>
    requires { ArePlaced K.eq entries.now places.now.entries }
    ensures { IsPlace K.eq entries.now key.now result }
{
    let place = *places.get(key)?;
    if place >= entries.len() {
        return None;
    }
    if *key == entries[place].0 {
        Some(place)
    } else {
        None
    }
}

/// The places of these entries.
fn places_of<K: Eq + Hash + Copy, V: Copy>(
    alloc: Global,
    entries: &[(K, V)],
) -> Result<IndexMap<K, usize>, AllocError>
    requires { IsDistinct K.eq (keys_of entries.now) }
    ensures { IfOk result (λ places. ArePlaced K.eq entries.now places.entries) }
{
    let mut places = IndexMap::new(alloc);
    for (place, entry) in entries.iter().enumerate() {
        places.insert(entry.0, place)?;
    }
    Ok(places)
}

/// Notes the place of a key that comes after these entries.
pub(crate) fn note<K: Eq + Hash + Copy, V: Copy>(
    alloc: Global,
    places: &mut KeyPlaces<K>,
    entries: &[(K, V)],
    key: K,
) -> Result<(), AllocError>
    requires once { IsDistinct K.eq (keys_of entries.now) }
    requires kept { IfSome places.old (λ boxed. ArePlaced K.eq entries.now boxed.value.entries) }
    requires new { lookup (K.eq key) entries.now ≡ None }
    ensures ok { OnOk result ((value : V) → IfSome places.new (λ boxed.
        ArePlaced K.eq (entries.now ++ (key, value) ∷ []) boxed.value.entries)) }
    ensures err { OnErr result (IfSome places.new (λ boxed.
        ArePlaced K.eq entries.now boxed.value.entries)) }
{
    match places {
        Some(places) => {
            places.insert(key, entries.len())?;
        }
        None if entries.len() >= FEW => {
            let mut made = places_of(alloc, entries)?;
            made.insert(key, entries.len())?;
            *places = Some(Box::new(alloc, made)?);
        }
        None => {}
    }
    Ok(())
}

/// Forgets the place of the key at `place`, into which the last entry comes.
pub(crate) fn forget<K: Eq + Hash + Copy, V: Copy>(
    places: &mut KeyPlaces<K>,
    entries: &[(K, V)],
    place: usize,
)
    requires kept { IfSome places.old (λ boxed. ArePlaced K.eq entries.now boxed.value.entries) }
    requires within { place < length entries.now }
    ensures { (value : K × V) → IfSome places.new (λ boxed.
        ArePlaced K.eq (swap_remove entries.now place value) boxed.value.entries) }
{
    if entries.len() <= FEW / 2 + 1 {
        *places = None;
    } else if let Some(places) = places {
        let last = entries[entries.len() - 1].0;
        // The last key has a place, so this needs no memory.
        let _ = places.insert(last, place);
        places.swap_remove(&entries[place].0);
    }
}
