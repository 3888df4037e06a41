//! Bindings.

ghost use Rattle.std.specs.Prelude.{◌≡◌};

use rpq_base::Name;
use std::marker::Model;

/// A name for each variable of a join.
#[derive(Debug, Drop)]
pub struct Binding {
    pub(crate) list: Vec<Name>,
}

impl Model for Binding {
    ghost use Rattle.std.specs.Prelude.{List, ℕ};

    ghost Value = { List (List ℕ) };

    ghost view = { λ binding. binding.list.items };
}

impl Binding {
    /// The names, by the numbers of their variables.
    pub fn names(&self) -> &[Name]
        ensures { result.now ≡ self.now }
    {
        &self.list
    }
}

impl PartialEq for Binding {
    ghost use Rattle.std.specs.Prelude.{◌==◌};
    ghost use Rattle.std.specs.Cmp.Lexicographic.{pointwise};
    ghost use Rattle.std.specs.Cmp.Rules.{comparing};
    ghost use Rattle.std.proofs.Common.{rules};

    ghost eq = { pointwise (pointwise ◌==◌) };

    ghost laws = { Prim.search (comparing, rules) };

    fn eq(&self, other: &Self) -> bool {
        self.list == other.list
    }
}

impl Eq for Binding {
    ghost use Rattle.std.specs.Cmp.Rules.{comparing};
    ghost use Rattle.std.proofs.Common.{rules};

    ghost laws = { Prim.search (comparing, rules) };
}
