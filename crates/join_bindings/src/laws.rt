//! The laws. The functions compute nothing: their contracts are the laws.

ghost use Rattle.join_bindings.specs.BindingExamples.{BindingExamples};
ghost use Rattle.join_bindings.specs.HaveJoinEvents.{HaveJoinEvents};
ghost use Rattle.join_bindings.specs.Histories.{JoinsHoldBindings};
ghost use Rattle.join_bindings.specs.Leading.{EventsLeadOn};
ghost use Rattle.join_bindings.specs.Laws.{ChangesAreTouched, BindingsHold};
ghost use Rattle.join_bindings.specs.TextExamples.{TextExamples};
ghost use Rattle.join_bindings.specs.Touched.{ThroughIsTouched};

use containment_laws::accepted_queries_have_answers;
use two_way::events_are_differences;

/// The bindings that are lost, or gained, are those that meet an atom by a pair that is.
pub fn changes_are_touched()
    ensures { ChangesAreTouched }
{}

/// Going through the events of a join leaves exactly its bindings.
pub fn bindings_hold()
    ensures { BindingsHold }
{}

/// What the search finds for events of one kind are the bindings that meet an atom by a pair which
/// such an event tells.
pub fn through_is_touched()
    ensures { ThroughIsTouched }
{}

/// Going through the events of all entries of a history leaves exactly the bindings over the
/// answers.
pub fn joins_hold_bindings()
    ensures { JoinsHoldBindings }
{}

/// Joins over accepted queries have their events from each history to each other, and they are one
/// list. Without joins this list is empty.
pub fn accepted_queries_have_join_events()
    ensures { HaveJoinEvents }
{
    accepted_queries_have_answers();
}

/// The events of queries from one history to another lead from their answers over the one to those
/// over the other: so an engine's events may be applied one entry after another.
pub fn events_lead_on()
    ensures { EventsLeadOn }
{
    events_are_differences();
}

/// The bindings of a symmetric join over some pairs, and how they change.
pub fn binding_examples()
    ensures { BindingExamples }
{}

/// Some changes with their lines.
pub fn text_examples()
    ensures { TextExamples }
{}
