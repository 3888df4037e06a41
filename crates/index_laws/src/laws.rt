//! The laws. The functions compute nothing: their contracts are the laws, and a law that rests on
//! one of the layer below that holds of all queries calls it.

ghost use Rattle.index_laws.specs.LawsOfStores.{HistoriesHaveStores, StoreSteps};
ghost use Rattle.index_laws.specs.LawsOfBests.{AnswersHaveWays, BestIsUntil, AcceptedAnswersEnd};
ghost use Rattle.index_laws.specs.LawsOfBests.{StoresHaveBests, BestOverFinals};
ghost use Rattle.index_laws.specs.LawsOfNumbers.{BestByNumbers, ByNumbersSteps};
ghost use Rattle.index_laws.specs.LawsOfPaths.{PathsByNumbers, PathsShowAnswers};
ghost use Rattle.index_laws.specs.LawsOfIndexes.{StoresFollow, IndexKeepsBests, IndexTellsAnswers};

use containment_laws::accepted_queries_have_answers;
use path_syntax::Language;

/// Each history has a store, and an edge has one value in it.
pub fn histories_have_stores()
    ensures { HistoriesHaveStores }
{}

/// What one entry more does to the store of a history: the values that the new clock reaches are
/// gone; then an insert raises its edge to its deadline, if that is above the clock, and a delete
/// takes its edge away.
pub fn store_steps()
    ensures { StoreSteps }
{}

/// From the clock of a history on, the answers by all paths are the pairs with a path that spells a
/// word of the language and all of whose values are above the clock.
pub fn answers_have_ways<L: Language>(language: &L)
    ensures { AnswersHaveWays (L.contains language.now) }
{}

/// The best of a pair over the words of an accepted query is the time at which the pair stops being
/// an answer.
pub fn best_is_until()
    ensures { BestIsUntil }
{}

/// Each answer of an accepted query has an end.
pub fn accepted_answers_end()
    ensures { AcceptedAnswersEnd }
{
    accepted_queries_have_answers()
}

/// A store of a history has one best, or none, from each vertex to each vertex at each state of an
/// automaton.
pub fn stores_have_bests()
    ensures { StoresHaveBests }
{}

/// The greatest of a pair's bests over the final states of an automaton of the query is the time at
/// which the pair stops being an answer. A query for simple paths has no answer from a vertex to
/// itself, whatever the bests.
pub fn best_over_finals()
    ensures { BestOverFinals }
{}

/// The best by numbers of vertices and labels is the best by the names that have these numbers.
pub fn best_by_numbers()
    ensures { BestByNumbers }
{}

/// The values by numbers stay those of the store: where both expire, where one edge changes in
/// both, where an edge without numbers changes, and where more names get numbers.
pub fn by_numbers_steps()
    ensures { ByNumbersSteps }
{}

/// A store of edges follows a history by `expire` at the new clock of each entry, and then by
/// `raise` to the deadline of an insert, if that is above the clock, or by `remove` for a delete.
pub fn stores_follow()
    ensures { StoresFollow }
{}

/// What an index keeps is the best of the history's store for the names that have the numbers, and
/// none for numbers that no name has.
pub fn index_keeps_bests()
    ensures { IndexKeepsBests }
{}

/// An index tells the answers of its query and where they end.
///
/// An engine cites this law so. Its invariant is `IsIndexOf` for each query, over the names that it
/// numbers: the edges of the query's forest hold the history's store (`HoldsStoreOf`, which each
/// entry keeps by [`stores_follow`]), and its trees are optimal for these edges (`KeepsBests`).
/// Then a pair of two names with numbers is an answer exactly where `kept` of these numbers and of
/// some final state is there, and the greatest of these is its end, but that a query for simple
/// paths has no answer from a vertex to itself (`TellsOfPair`). A name without a number is in no
/// answer. Before and after an entry this gives the events of the entry.
pub fn index_tells_answers()
    ensures { IndexTellsAnswers }
{}

/// A path by numbers is, edge by edge, a path for the names that have the numbers. Where it leads
/// to a final state and its least value is the end of an answer, it shows this answer: its edges
/// are in the window, and its word is in the language.
pub fn paths_by_numbers()
    ensures edges { PathsByNumbers }
    ensures answers { PathsShowAnswers }
{}
