//! The bindings of a join that events touch.

ghost use Rattle.std.specs.Prelude.{◌≡◌, ◌<◌, ◌↔◌, ◌⊎◌, List, ℕ, length, Contains, IfOk, OnOk};
ghost use Rattle.rpq_base.specs.declared.data.Event.{Event};
ghost use Rattle.join_file.specs.Sound.{IsAtomWithin};
ghost use Rattle.join_bindings.specs.Touched.{IsThroughAtom, IsThroughEvent, IsThroughKind};
ghost use Rattle.join_file.specs.Sound.{IsSound};

use crate::binding::Binding;
use crate::query_pairs::QueryPairs;
use crate::through::through;
use join_file::{JoinAtom, JoinDef};
use rpq_base::{Event, Memory};
use std::alloc::Global;

/// Adds the bindings that meet this atom by the pair of the event, if it is of the atom's query.
fn add_by_atom(
    found: &mut Vec<Binding>,
    alloc: Global,
    sets: &QueryPairs,
    def: &JoinDef,
    atom: &JoinAtom,
    event: &Event,
) -> Result<(), Memory>
    requires sound { IsSound (length sets.now) def.now }
    requires own { IsAtomWithin def.now.variables atom.now }
    ensures { OnOk result ((names : List (List ℕ)) → Contains found.new.items names
        ↔ (Contains found.old.items names
        ⊎ IsThroughAtom sets.now def.now event.now atom.now names)) }
{
    if atom.query == event.query {
        let mut more = through(alloc, sets, def, atom, &event.pair)?;
        found.append(&mut more)?;
    }
    Ok(())
}

/// Adds the bindings that meet an atom by the pair of the event.
fn add_by_event(
    found: &mut Vec<Binding>,
    alloc: Global,
    sets: &QueryPairs,
    def: &JoinDef,
    event: &Event,
) -> Result<(), Memory>
    requires { IsSound (length sets.now) def.now }
    ensures { OnOk result ((names : List (List ℕ)) → Contains found.new.items names
        ↔ (Contains found.old.items names
        ⊎ IsThroughEvent sets.now def.now def.now.atoms event.now names)) }
{
    for atom in &def.atoms {
        add_by_atom(found, alloc, sets, def, atom, event)?;
    }
    Ok(())
}

/// Adds the bindings that meet an atom by the pair of the event, if it is an addition, or a
/// retraction.
fn add_if(
    found: &mut Vec<Binding>,
    alloc: Global,
    sets: &QueryPairs,
    def: &JoinDef,
    added: bool,
    event: &Event,
) -> Result<(), Memory>
    requires { IsSound (length sets.now) def.now }
    ensures { OnOk result ((names : List (List ℕ)) → Contains found.new.items names
        ↔ (Contains found.old.items names ⊎ ((event.now.added ≡ added)
        × IsThroughEvent sets.now def.now def.now.atoms event.now names))) }
{
    if event.added == added {
        add_by_event(found, alloc, sets, def, event)?;
    }
    Ok(())
}

/// The bindings of a join over these pairs that meet an atom by the pair of an addition, or of a
/// retraction. One that does by several stands there several times.
pub(crate) fn touched(
    alloc: Global,
    sets: &QueryPairs,
    def: &JoinDef,
    added: bool,
    events: &[Event],
) -> Result<Vec<Binding>, Memory>
    requires { IsSound (length sets.now) def.now }
    ensures { IfOk result (λ found. (names : List (List ℕ)) → Contains found.items names
        ↔ IsThroughKind sets.now def.now added events.now names) }
{
    let mut found = Vec::new(alloc);
    for event in events {
        add_if(&mut found, alloc, sets, def, added, event)?;
    }
    Ok(found)
}
