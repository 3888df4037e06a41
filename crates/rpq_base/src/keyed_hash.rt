//! Hashes with random keys.

use std::hash::{BuildHasher, DefaultHasher, RandomState};
use std::random::RandomSource;

/// A hash with random keys, so that a stranger who chooses the names can't choose many that fall
/// together.
///
/// Where the system gives no random bytes, it is std's hash without keys: all answers are the same,
/// and look-ups are as fast but for names that were chosen to be slow.
#[derive(Clone, Copy)]
pub struct KeyedHash {
    keyed: Option<RandomState>,
}

impl KeyedHash {
    /// A hash with keys from the system.
    pub fn new<R: RandomSource>(rt: &R) -> KeyedHash {
        KeyedHash {
            keyed: RandomState::new(rt).ok(),
        }
    }
}

impl BuildHasher for KeyedHash {
    ghost use Rattle.std.specs.Hash.DefaultHasher.{initial};
    ghost use Rattle.std.specs.Option.{option_map_or};
    ghost use Rattle.std.specs.RandomState.{initial_hasher};

    type Hasher = DefaultHasher;

    ghost build_hasher = { λ hash. option_map_or initial_hasher hash.keyed initial };

    fn build_hasher(&self) -> DefaultHasher {
        match &self.keyed {
            Some(state) => state.build_hasher(),
            None => DefaultHasher::new(),
        }
    }
}
