//! The bindings that events touch, as events of their joins.

ghost use Rattle.std.specs.Prelude.{◌≡◌, ◌≤◌, ◌<◌, ◌↔◌, ◌⊎◌, length, All, Contains, OnOk};
ghost use Rattle.join_bindings.specs.declared.event.JoinEvent.{JoinEvent};
ghost use Rattle.join_bindings.specs.Touched.{IsThroughKind};
ghost use Rattle.join_file.specs.Sound.{IsSound};
ghost use Rattle.join_bindings.specs.Changed.{IsFound};

use crate::binding::Binding;
use crate::event::JoinEvent;
use crate::query_pairs::QueryPairs;
use crate::touched::touched;
use join_file::JoinDef;
use rpq_base::{Event, Memory};
use std::alloc::Global;

/// Adds these bindings as gained or lost by the join.
fn add_bindings(
    found: &mut Vec<JoinEvent>,
    bindings: Vec<Binding>,
    join: u32,
    added: bool,
) -> Result<(), Memory>
    ensures { OnOk result ((each : JoinEvent) → Contains found.new.items each
        ↔ (Contains found.old.items each ⊎ ((each.join ≡ join) × (each.added ≡ added)
        × Contains bindings.items each.binding))) }
{
    for binding in bindings {
        found.push(JoinEvent {
            join,
            added,
            binding,
        })?;
    }
    Ok(())
}

/// Adds what a join gains or loses by the events of one kind.
fn add_touched(
    found: &mut Vec<JoinEvent>,
    alloc: Global,
    sets: &QueryPairs,
    def: &JoinDef,
    join: u32,
    added: bool,
    events: &[Event],
) -> Result<(), Memory>
    requires { IsSound (length sets.now) def.now }
    ensures { OnOk result ((each : JoinEvent) → Contains found.new.items each
        ↔ (Contains found.old.items each ⊎ ((each.join ≡ join) × (each.added ≡ added)
        × IsThroughKind sets.now def.now added events.now each.binding))) }
{
    let bindings = touched(alloc, sets, def, added, events)?;
    add_bindings(found, bindings, join, added)?;
    Ok(())
}

/// Adds what the joins gain or lose by the events of one kind.
pub(crate) fn add_found(
    found: &mut Vec<JoinEvent>,
    alloc: Global,
    sets: &QueryPairs,
    defs: &[JoinDef],
    added: bool,
    events: &[Event],
) -> Result<(), Memory>
    requires few { length defs.now ≤ 32 }
    requires sound { All (IsSound (length sets.now)) defs.now }
    ensures { OnOk result ((each : JoinEvent) → Contains found.new.items each
        ↔ (Contains found.old.items each ⊎ IsFound sets.now defs.now added events.now each)) }
{
    for join in 0..defs.len() as u32 {
        add_touched(
            found,
            alloc,
            sets,
            &defs[join as usize],
            join,
            added,
            events,
        )?;
    }
    Ok(())
}
