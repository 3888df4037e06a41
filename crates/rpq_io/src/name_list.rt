//! Lists of names.

ghost use Rattle.std.specs.Prelude.{[], ◌∷◌, ◌++◌, ◌≡◌, ◌≤◌, OnOk, bytes_eq, string_bytes};
ghost use Rattle.std.specs.List.{list_any};
ghost use Rattle.rpq_io.specs.Names.{is_noted};

use rpq_base::Memory;
use std::alloc::Global;
use std::marker::Model;

/// Names in the order in which they were noted. Contracts see their bytes, and for how many more
/// there is room without new memory.
#[derive(Drop)]
pub struct NameList {
    names: Vec<String>,
}

impl Model for NameList {
    ghost use Rattle.std.specs.Prelude.{◌-◌, map, string_bytes, vec_len, vec_capacity};
    ghost use Rattle.rpq_io.specs.Names.{NameRoom};

    ghost Value = { NameRoom };

    ghost view = { λ list. record {
      names = map (λ name. string_bytes name) list.names.items;
      room = vec_capacity list.names - vec_len list.names;
    } };
}

impl NameList {
    /// No names.
    pub fn new(alloc: Global) -> NameList
        ensures { result.names ≡ [] }
    {
        NameList {
            names: Vec::new(alloc),
        }
    }

    /// Takes the memory for one more name.
    pub fn make_room(&mut self) -> Result<(), Memory>
        ensures ok { OnOk result (1 ≤ self.new.room) }
        ensures names { self.new.names ≡ self.old.names }
    {
        self.names.reserve(1)?;
        Ok(())
    }

    /// Notes a name, for which there is room.
    pub fn note(&mut self, name: String)
        requires { 1 ≤ self.old.room }
        ensures { self.new.names ≡ self.old.names ++ string_bytes name ∷ [] }
    {
        self.names.push_reserved(name);
    }

    /// Whether the name is among those noted.
    pub fn contains(&self, name: &str) -> bool
        ensures { result ≡ is_noted name.now self.now.names }
    {
        is_among(name, self.names.as_slice())
    }
}

fn is_among(name: &str, names: &[String]) -> bool
    ensures { result ≡ list_any (λ noted. bytes_eq (string_bytes noted) name.now) names.now }
{
    names.iter().any(|noted| noted.as_str() == name)
}
