//! The laws. The functions compute nothing: their contracts are the laws, and a law that rests on
//! one of a layer below calls it.

ghost use Rattle.alike_histories.specs.Examples.{AlikeExamples};
ghost use Rattle.alike_histories.specs.Laws.{AlikeToItself, AlikeInEitherOrder, AlikeByTheMiddle};
ghost use Rattle.alike_histories.specs.Laws.{AlikeWithMore, AlikeHaveAnswers, AlikeHaveEnds};
ghost use Rattle.alike_histories.specs.Laws.{AlikeHaveEvents, AlikeBothWays, AlikeWalked};
ghost use Rattle.alike_histories.specs.Laws.{AlikeWalkedWithMore};

use rpq_model::one_entry_more;
use two_way::edges_are_seen_both_ways;

/// Each history is seen alike with itself, those that are seen alike are so in either order, and
/// those that are seen alike with a third are so with each other.
pub fn alike_is_equivalence()
    ensures itself { AlikeToItself }
    ensures order { AlikeInEitherOrder }
    ensures middle { AlikeByTheMiddle }
{}

/// Histories that are seen alike stay so, whatever follows; also those over which queries are
/// evaluated that take edges backwards.
pub fn alike_with_more()
    ensures plain { AlikeWithMore }
    ensures walked { AlikeWalkedWithMore }
{
    one_entry_more()
}

/// A query has the same answers, with the same ends, over histories that its window sees alike.
pub fn alike_have_answers()
    ensures answers { AlikeHaveAnswers }
    ensures ends { AlikeHaveEnds }
{
    one_entry_more()
}

/// A further entry brings the same events after histories that are seen alike.
pub fn alike_have_events()
    ensures { AlikeHaveEvents }
{
    one_entry_more()
}

/// Histories that are seen alike, whose labels point forwards, are seen alike by queries that take
/// edges backwards too.
pub fn alike_both_ways()
    ensures doubled { AlikeBothWays }
    ensures walked { AlikeWalked }
{
    edges_are_seen_both_ways()
}

/// Some small histories that are seen alike, and some that aren't.
pub fn alike_examples()
    ensures { AlikeExamples }
{}
