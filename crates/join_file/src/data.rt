//! Joins.

use rpq_base::Name;
use std::marker::Model;

/// What stands at an end of an atom: a variable, by its number from 0, or a vertex.
#[derive(Debug, PartialEq, Eq, Drop)]
pub enum Term {
    /// The variable with this number.
    Variable(u32),
    /// The vertex with this name.
    Vertex(Name),
}

/// An atom: the pair of its two terms is an answer of the query with this number.
#[derive(Debug, PartialEq, Eq, Drop)]
pub struct JoinAtom {
    pub query: u32,
    pub from: Term,
    pub to: Term,
}

/// A join: its name, the number of its variables, and its atoms.
#[derive(Debug)]
pub struct JoinDef {
    pub name: Name,
    pub variables: u32,
    pub atoms: Vec<JoinAtom>,
}

impl Drop for JoinDef {
    fn drop(self) {
        let JoinDef {
            name: _name,
            variables: _variables,
            atoms: _atoms,
        } = self;
    }
}

impl Model for JoinDef {
    ghost use Rattle.join_file.specs.Joins.{JoinValue};

    ghost Value = { JoinValue };

    ghost view = { λ def. record {
      name = def.name;
      variables = def.variables;
      atoms = def.atoms.items;
    } };
}
