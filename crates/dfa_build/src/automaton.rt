//! The position automaton of an expression.

use rpq_base::Label;
use std::marker::Model;

/// The position automaton of an expression.
///
/// Its states are a start and the positions: the atoms of the expression, numbered from 0 from
/// left to right. Each list of positions is strictly rising. Contracts see it as the record of
/// its fields.
#[derive(Debug, Drop)]
pub struct Positions {
    /// The label of each position.
    pub atoms: Vec<Label>,
    /// The positions where a word may begin.
    pub first: Vec<u32>,
    /// The positions where a word may end.
    pub last: Vec<u32>,
    /// For each position, those that may stand right after it in a word.
    pub follow: Vec<Vec<u32>>,
}

impl Model for Positions {
    ghost use Rattle.std.specs.Prelude.{map};
    ghost use Rattle.dfa_build.specs.Positions.{PositionsValue};

    ghost Value = { PositionsValue };

    ghost view = { λ positions. record {
      atoms = positions.atoms.items;
      first = positions.first.items;
      last = positions.last.items;
      follow = map (λ row. row.items) positions.follow.items;
    } };
}
