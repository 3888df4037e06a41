//! Numbers of workers.

ghost use Rattle.std.specs.Prelude.{◌≡◌, ◌≤◌, ◌<◌, ◌+◌, ◌⊎◌, min, Some, None};

use std::marker::Model;

/// The most workers that share the trees of a change.
pub const MAX_WORKERS: u32 = 64;

/// How many workers share the trees of a change: a number from 1 to 64. Contracts see it as that
/// number.
#[derive(Clone, Copy, Debug, PartialEq, Eq)]
pub struct Workers {
    number: u32,
}

impl Model for Workers {
    ghost use Rattle.std.specs.Prelude.{ℕ, ◌≤◌};

    ghost Value = { ℕ };

    ghost view = { λ workers. workers.number };

    ghost invariant = { λ workers. (1 ≤ workers.number) × (workers.number ≤ 64) };

    ghost inverse = { λ workers. record { number = workers } };
}

impl Workers {
    /// A single worker.
    pub fn one() -> Workers
        ensures { result ≡ 1 }
    {
        Workers { number: 1 }
    }

    /// This many workers, where the number is from 1 to 64.
    pub fn new(number: u32) -> Option<Workers>
        ensures some { (1 ≤ number) × (number ≤ 64) → result ≡ Some number }
        ensures none { (number ≡ 0) ⊎ (64 < number) → result ≡ None }
    {
        if number < 1 || number > MAX_WORKERS {
            return None;
        }
        Some(Workers { number })
    }

    /// One worker and this many further ones, but no more than `most`.
    pub fn with_further(further: usize, most: Workers) -> Workers
        ensures { result ≡ min (further + 1) most }
    {
        let others = most.number as usize - 1;
        Workers {
            number: further.min(others) as u32 + 1,
        }
    }

    /// The number.
    pub fn number(self) -> u32
        ensures number { result ≡ self }
        ensures some { 1 ≤ self }
        ensures few { self ≤ 64 }
    {
        self.number
    }
}
