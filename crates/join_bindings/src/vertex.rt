//! Vertices as keys.

ghost use Rattle.std.specs.Prelude.{◌≡◌, IfOk};

use indexmap::Equivalent;
use rpq_base::{Memory, Name, TryClone};
use std::hash::{Hash, Hasher};
use std::marker::Model;

/// A vertex that is found by its hash. Contracts see its name.
#[derive(Drop)]
pub(crate) struct Vertex {
    name: Name,
}

impl Model for Vertex {
    ghost use Rattle.std.specs.Prelude.{List, ℕ};

    ghost Value = { List ℕ };

    ghost view = { λ vertex. vertex.name };
}

impl Vertex {
    /// The vertex with a copy of this name.
    pub(crate) fn of(name: &Name) -> Result<Vertex, Memory>
        ensures { IfOk result (λ vertex. vertex ≡ name.now) }
    {
        Ok(Vertex { name: name.copy()? })
    }

    /// The name of the vertex.
    pub(crate) fn name(&self) -> &Name
        ensures { result.now ≡ self.now }
    {
        &self.name
    }
}

impl PartialEq for Vertex {
    ghost use Rattle.std.specs.Prelude.{◌==◌};
    ghost use Rattle.std.specs.Cmp.Lexicographic.{pointwise};
    ghost use Rattle.std.specs.Cmp.Rules.{comparing};
    ghost use Rattle.std.proofs.Common.{rules};

    ghost eq = { pointwise ◌==◌ };

    ghost laws = { Prim.search (comparing, rules) };

    fn eq(&self, other: &Self) -> bool {
        self.name == other.name
    }
}

impl Eq for Vertex {
    ghost use Rattle.std.specs.Cmp.Rules.{comparing};
    ghost use Rattle.std.proofs.Common.{rules};

    ghost laws = { Prim.search (comparing, rules) };
}

impl Hash for Vertex {
    ghost use Rattle.std.specs.Hash as fed;
    ghost use Rattle.std.specs.Cmp.Rules.{hashing};
    ghost use Rattle.std.proofs.Common.{rules};

    ghost hash_input = { fed.slice fed.u8 };

    ghost respects_eq = { Prim.search (hashing, rules) };

    fn hash<H: Hasher>(&self, state: &mut H) {
        self.name.as_bytes().hash(state);
    }
}

/// A vertex is looked up by the bytes of its name.
impl Equivalent<Vertex> for &[u8] {
    ghost use Rattle.std.specs.Prelude.{◌==◌};
    ghost use Rattle.std.specs.Cmp.Lexicographic.{pointwise, bytes_decides, nat_list_eq_equiv};
    ghost use Rattle.std.specs.Hash as fed;
    ghost use Rattle.std.proofs.Common.{ap};

    ghost equivalent = { λ bytes vertex. pointwise ◌==◌ bytes.now vertex };

    ghost respects_hash = { λ bytes vertex same.
        ap (fed.slice fed.u8) ((bytes_decides bytes.now vertex).0 same) };

    ghost respects_eq = { λ bytes first second. nat_list_eq_equiv.congr bytes.now first second };

    fn equivalent(&self, vertex: &Vertex) -> bool {
        *self == vertex.name.as_bytes()
    }
}
