//! Laws of events, for each language: a query definition is one, that of its expression. The
//! functions compute nothing: their contracts are the laws, and a law that rests on one of the
//! layer below calls it.

ghost use Rattle.rpq_model.specs.EventLaws.{EventsAreOne, AllEventsAreOne, EventsAreApart};
ghost use Rattle.rpq_model.specs.EventLaws.{EventsAreChanges, HeldIsAnswers, EachHeldIsAnswers};
ghost use Rattle.rpq_model.specs.EventLaws.{HeldStep, EntryEventsAreOne, EachHasOneList};
ghost use Rattle.rpq_model.specs.EventLaws.{EventsGrow, EventsHaveFronts};

use path_syntax::Language;
use rpq_base::same_is_equal;

/// A query has at most one list of events from one history to another.
pub fn events_are_one<L: Language>(language: &L)
    ensures { EventsAreOne (L.contains language.now) }
{}

/// Each entry of a history has at most one list of events.
pub fn all_events_are_one<L: Language>(language: &L)
    ensures { AllEventsAreOne (L.contains language.now) }
{}

/// No event undoes another of the same entry: the losses come first, each part is sorted, and no
/// pair has two events.
pub fn events_are_apart<L: Language>(language: &L)
    ensures { EventsAreApart (L.contains language.now) }
{
    same_is_equal()
}

/// The events are exactly the changes: a loss was an answer and is none, a gain was none and is
/// one.
pub fn events_are_changes<L: Language>(language: &L)
    ensures { EventsAreChanges (L.contains language.now) }
{
    same_is_equal()
}

/// Going through the events of all entries of a history, from the empty set, leaves exactly its
/// answers.
pub fn held_is_answers<L: Language>(language: &L)
    ensures { HeldIsAnswers (L.contains language.now) }
{
    same_is_equal()
}

/// Going through the events of several queries, from the empty set, leaves exactly the answers of
/// each.
pub fn each_held_is_answers()
    ensures { EachHeldIsAnswers }
{
    same_is_equal()
}

/// One entry's events carry what is held from the answers before it to those after it, for each of
/// several queries.
pub fn held_step()
    ensures { HeldStep }
{
    same_is_equal()
}

/// An entry brings at most one list of events of several queries.
pub fn entry_events_are_one()
    ensures { EntryEventsAreOne }
{}

/// Each entry of a history has at most one list of events of several queries.
pub fn each_has_one_list()
    ensures { EachHasOneList }
{}

/// One entry more brings one list of events more.
pub fn events_grow()
    ensures { EventsGrow }
{}

/// The first entries of a history have the first lists of events.
pub fn events_have_fronts()
    ensures { EventsHaveFronts }
{}
