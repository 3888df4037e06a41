//! Laws of the definitions. The functions do nothing: their contracts are the laws.

ghost use Rattle.entry_steps.specs.Laws.{EntriesStandIn, EveryEntryHasAStep, FrontsHoldAnswers};
ghost use Rattle.entry_steps.specs.Laws.{FrontsHoldBindings, StepsHaveJoinEvents};
ghost use Rattle.entry_steps.specs.Laws.{StepsHaveTheEvents};

use alike_histories::{alike_both_ways, alike_is_equivalence, alike_with_more};
use containment_laws::accepted_queries_have_events;
use join_bindings::{accepted_queries_have_join_events, joins_hold_bindings};
use path_witness::answers_are_shown;
use rpq_base::same_is_equal;

/// Each entry brings a step, where the queries can be evaluated and the joins are over them.
pub fn every_entry_has_a_step()
    ensures { EveryEntryHasAStep }
{
    accepted_queries_have_events();
    answers_are_shown();
    accepted_queries_have_join_events();
}

/// The steps of a history have the events that its entries bring, whether paths are told or not.
pub fn steps_have_the_events()
    ensures { StepsHaveTheEvents }
{}

/// Going through the events of the first entries leaves exactly each query's answers over as many
/// entries, and over their inverses where edges may be taken backwards.
pub fn fronts_hold_answers()
    ensures { FrontsHoldAnswers }
{
    same_is_equal();
}

/// Where edges are taken forwards alone, the steps of a history have the lines of the changes of
/// bindings that its entries bring.
pub fn steps_have_join_events()
    ensures { StepsHaveJoinEvents }
{}

/// Going through the changes of the first entries leaves exactly the bindings of each join over the
/// answers over as many entries.
pub fn fronts_hold_bindings()
    ensures { FrontsHoldBindings }
{
    joins_hold_bindings();
}

/// What stands in for a history, which an engine can be fed in its place: the history itself, what
/// stands in for what does, either with later entries behind it, and entries whose labels point
/// forwards that the queries see alike with it.
pub fn entries_stand_in()
    ensures { EntriesStandIn }
{
    alike_is_equivalence();
    alike_with_more();
    alike_both_ways();
}
