//! The numbers of two vertices.

ghost use Rattle.std.specs.Prelude.{ℕ, IfNone, IfSome};
ghost use Rattle.index_laws.specs.Numbered.{AreNumbersOf};

use name_table::Names;
use rpq_base::Name;

/// The numbers of two vertices.
#[derive(Clone, Copy, Debug, PartialEq, Eq)]
pub struct Vertices {
    pub from: u32,
    pub to: u32,
}

impl Vertices {
    /// The numbers of the two vertices, if both have one.
    pub fn find(names: &Names, from: &Name, to: &Name) -> Option<Vertices>
        ensures some { IfSome result (λ ends.
            AreNumbersOf names.now from.now to.now ends.from ends.to) }
        ensures none { IfNone result ((root vertex : ℕ) →
            AreNumbersOf names.now from.now to.now root vertex → ⊥) }
    {
        match (names.find(from), names.find(to)) {
            (Some(from), Some(to)) => Some(Vertices { from, to }),
            _ => None,
        }
    }
}
