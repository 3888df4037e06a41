//! The laws. The functions compute nothing: their contracts are the laws, and a law that rests on
//! one of a layer below calls it.

ghost use Rattle.two_way.specs.Examples.{TwoWayExamples};
ghost use Rattle.two_way.specs.Laws.{EdgesAreSeenBothWays, OneWaySame};
ghost use Rattle.two_way.specs.Laws.{PlainExpressionsHavePlainWords, NetIsDifference};
ghost use Rattle.two_way.specs.Laws.{EventsAreDifferences, NetIsTwoWay, TickIsTwoWay};
ghost use Rattle.two_way.specs.Laws.{AllNetAreTwoWay};

use path_syntax::Language;
use rpq_base::same_is_equal;
use rpq_model::one_entry_more;

/// Of a history whose labels point forwards, a query sees each live edge both ways, and no other,
/// where each entry stands with its inverse.
pub fn edges_are_seen_both_ways()
    ensures { EdgesAreSeenBothWays }
{
    one_entry_more()
}

/// Where no word of a language takes an edge backwards, its two-way answers are its answers,
/// whatever the history.
pub fn one_way_same<L: Language>(language: &L)
    ensures { OneWaySame (L.contains language.now) }
{
    one_entry_more()
}

/// An expression without an inverse label has no word that takes an edge backwards. So
/// [`one_way_same`] holds of its query.
pub fn plain_expressions_have_plain_words()
    ensures { PlainExpressionsHavePlainWords }
{}

/// The net of two differences, one after the other, is the difference from the first family of sets
/// to the third.
pub fn net_is_difference()
    ensures { NetIsDifference }
{}

/// The events of queries from one history to another are exactly the difference of their answers
/// over the two. So they are in the order that `net` asks for.
pub fn events_are_differences()
    ensures { EventsAreDifferences }
{
    same_is_equal()
}

/// The events that an engine answers for an entry and then for its inverse, netted, are the two-way
/// events of the entry; those of an entry without an inverse are so by themselves.
pub fn net_is_two_way()
    ensures nets { NetIsTwoWay }
    ensures ticks { TickIsTwoWay }
{
    events_are_differences();
}

/// The events that an engine answers for a front of entries and their inverses, netted entry by
/// entry, are the two-way events of the entries.
pub fn all_net_are_two_way()
    ensures { AllNetAreTwoWay }
{
    events_are_differences();
}

/// A doubled history, and the net of two lists of events.
pub fn two_way_examples()
    ensures { TwoWayExamples }
{}
