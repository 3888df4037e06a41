//! The values of numbers, by look-ups.

ghost use Rattle.std.specs.Prelude.{◌≡◌, ℕ, nat_eq, cond, None, Some};
ghost use Rattle.std.specs.Map.{lookup};

use small_map::SmallMap;

/// The value of the number, or none.
pub(crate) fn look_up<V: Copy>(map: &SmallMap<u32, V>, key: u32) -> Option<V>
    ensures { result ≡ lookup (nat_eq key) map.now }
{
    match map.place_of(&key) {
        Some(place) => Some(map.at(place).1),
        None => None,
    }
}

/// Takes the value of the number away, where it has one.
pub(crate) fn take_out<V: Copy>(map: &mut SmallMap<u32, V>, key: u32)
    ensures { (each : ℕ) → lookup (nat_eq each) map.new
        ≡ cond (nat_eq key each) None (lookup (nat_eq each) map.old) }
{
    if let Some(place) = map.place_of(&key) {
        map.remove_at(place);
    }
}
