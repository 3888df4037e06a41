//! The laws. The functions compute nothing: their contracts are the laws, and a law that rests on
//! one of the layer below calls it.

ghost use Rattle.containment_laws.specs.Accepted.{AcceptedHaveAnswers, AcceptedHaveAllEvents};
ghost use Rattle.containment_laws.specs.Accepted.{AcceptedHaveEvents};
ghost use Rattle.containment_laws.specs.LineExamples.{LineExamples};
ghost use Rattle.containment_laws.specs.Lines.{SimpleMissesAPair};
ghost use Rattle.containment_laws.specs.SimplePaths.{ContainedAnswersAgree, ContainedIsSimple};
ghost use Rattle.containment_laws.specs.SimplePaths.{SimpleAnswersFromAll};

use path_syntax::Language;
use rpq_model::histories_have_answers;

/// A language has the property of containment exactly where simple paths join each pair of two
/// vertices that any path joins, whatever edges there are.
pub fn contained_is_simple<L: Language>(language: &L)
    ensures { ContainedIsSimple (L.contains language.now) }
{}

/// Where a language has the property, the answers between two vertices are the same by simple paths
/// and by all paths, over every history.
pub fn contained_answers_agree<L: Language>(language: &L)
    ensures { ContainedAnswersAgree (L.contains language.now) }
{}

/// Where a language has the property, the list of its answers by simple paths is the one by all
/// paths without the pairs of one vertex.
pub fn simple_answers_from_all<L: Language>(language: &L)
    ensures { SimpleAnswersFromAll (L.contains language.now) }
{}

/// Where a language doesn't have the property, any three words that show it give a history over
/// which two vertices are an answer by all paths and none by simple paths: a line for the first
/// word, a loop at its end for the second, and a line from there for the third, on any distinct
/// names and in every window with a size of at least 1. The two are where the first line begins and
/// where the second ends.
pub fn simple_misses_a_pair<L: Language>(language: &L)
    ensures { SimpleMissesAPair (L.contains language.now) }
{}

/// Some histories of this form, edge by edge.
pub fn line_examples()
    ensures { LineExamples }
{}

/// A query that is accepted has a list of answers over each history: one that takes all paths has
/// one, and where it takes the simple ones its answers are those of all paths between two vertices.
pub fn accepted_queries_have_answers()
    ensures { AcceptedHaveAnswers }
{
    histories_have_answers();
}

/// Queries that are accepted have their events from each history to each other, and so those of
/// each entry of each history.
pub fn accepted_queries_have_events()
    ensures steps { AcceptedHaveEvents }
    ensures all { AcceptedHaveAllEvents }
{
    accepted_queries_have_answers();
}
