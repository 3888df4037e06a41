//! The sort key of a name.

ghost use Rattle.std.specs.Prelude.{◌≡◌, slice_index};
ghost use Rattle.name_table.specs.Keys.{sort_key, AreBytes};

/// How many bytes of a name its sort key holds.
const KEY_BYTES: usize = 16;

/// The byte at this place, or 0 where there is none.
fn byte_at(bytes: &[u8], place: usize) -> u8
    ensures { result ≡ slice_index bytes.now place }
{
    match bytes.get(place) {
        Some(byte) => *byte,
        None => 0,
    }
}

/// The first 16 bytes as one number, the first byte the most significant, and 0 where there is
/// none.
pub(crate) fn sort_key(bytes: &[u8]) -> u128
    ensures key { result ≡ sort_key bytes.now }
    ensures bytes { AreBytes bytes.now }
{
    let mut key: u128 = 0;
    for place in 0..KEY_BYTES {
        key = key * 256 + byte_at(bytes, place) as u128;
    }
    key
}
