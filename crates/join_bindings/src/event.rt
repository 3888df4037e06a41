//! Events of joins, and their order.

ghost use Rattle.std.specs.Prelude.{◌≡◌, ◌↔◌, Contains};
ghost use Rattle.std.specs.List.Sorted.{IsStrictlySortedBy};
ghost use Rattle.join_bindings.specs.declared.event.JoinEvent.{JoinEvent};
ghost use Rattle.join_bindings.specs.Events.{join_event_cmp};

use crate::binding::Binding;
use std::cmp::Ordering;

/// A change of a join's bindings: the binding is gained where `added`, else lost. Joins are
/// numbered from 0.
#[derive(Debug, PartialEq, Eq, Drop)]
pub struct JoinEvent {
    pub join: u32,
    pub added: bool,
    pub binding: Binding,
}

/// The order of events: by join, what is lost before what is gained, then by binding.
fn event_order(first: &JoinEvent, second: &JoinEvent) -> Ordering
    ensures { result ≡ join_event_cmp first.now second.now }
{
    first
        .join
        .cmp(&second.join)
        .then(first.added.cmp(&second.added))
        .then(first.binding.names().cmp(second.binding.names()))
}

/// Puts the events in order, each once.
pub(crate) fn put_in_order(events: &mut Vec<JoinEvent>)
    ensures sorted { IsStrictlySortedBy join_event_cmp events.new.items }
    ensures same { (each : JoinEvent) → Contains events.new.items each
        ↔ Contains events.old.items each }
{
    events.sort_unstable_by(|first, second| event_order(first, second));
    events.dedup();
}
