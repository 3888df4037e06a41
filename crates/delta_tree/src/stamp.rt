//! The number of puts on a tree, which lives in contracts alone.

ghost use Rattle.std.specs.Prelude.{◌≡◌, ◌+◌};

use std::marker::Model;
use std::snapshot::Snapshot;

/// How many puts were made on a tree. No code can read it, and it takes no memory that grows with
/// it, so nothing bounds the number. Contracts see the number.
#[derive(Drop)]
pub struct PutCount {
    /// What it was before the last put. A snapshot has no bytes.
    before: Option<Snapshot<PutCount>>,
}

impl Model for PutCount {
    ghost use Rattle.std.specs.Prelude.{ℕ, option_map};
    ghost use Rattle.delta_tree.specs.Stamps.{one_more};

    ghost Value = { ℕ };

    ghost view = { λ count. one_more (option_map (λ seen. seen.value) count.before) };

    ghost size = { λ count. count };
}

impl PutCount {
    /// No put was made.
    pub fn new() -> PutCount
        ensures { result ≡ 0 }
    {
        PutCount { before: None }
    }

    /// Counts one put more.
    pub fn add_one(&mut self)
        ensures { self.new ≡ self.old + 1 }
    {
        let before = Snapshot::of(&*self);
        self.before = Some(before);
    }

    /// The number, for a node to keep.
    pub fn stamp(&self) -> Stamp
        ensures { result ≡ self.now }
    {
        Stamp {
            puts: Snapshot::of(self),
        }
    }
}

/// The number of puts that were made before a node got what it has. It has no bytes, and contracts
/// see the number.
#[derive(Drop)]
pub struct Stamp {
    puts: Snapshot<PutCount>,
}

impl Model for Stamp {
    ghost use Rattle.std.specs.Prelude.{ℕ};

    ghost Value = { ℕ };

    ghost view = { λ stamp. stamp.puts.value };
}
