//! Laws of windows. The functions compute nothing: their contracts are the laws, and a law that
//! rests on one of the layer below calls it.

ghost use Rattle.rpq_model.specs.WindowLaws.{LiveByPlaces, LiveInOrder, EdgesByPlaces};
ghost use Rattle.rpq_model.specs.WindowLaws.{TimesHaveDeadlines, LiveBelowDeadline, LaterSeesLess};
ghost use Rattle.rpq_model.specs.WindowLaws.{OneEntryMore, DeleteTakesAllBefore, LastInsertIsSeen};

use rpq_base::same_is_equal;

/// The live entries at a clock are those that are live by their places.
pub fn live_by_places()
    ensures { LiveByPlaces }
{
    same_is_equal()
}

/// The live entries come in the order of their places, each once.
pub fn live_in_order()
    ensures { LiveInOrder }
{}

/// The live edges are those of the entries that are live by their places, at any clock.
pub fn edges_by_places()
    ensures { EdgesByPlaces }
{
    same_is_equal()
}

/// Each time has one deadline: the least multiple of the slide that is at least the time and the
/// size together.
pub fn times_have_deadlines()
    ensures { TimesHaveDeadlines }
{}

/// An insert that no later entry deletes is live exactly where its deadline, which may be its own
/// end, is above the clock.
pub fn live_below_deadline()
    ensures { LiveBelowDeadline }
{
    same_is_equal()
}

/// A later clock sees less.
pub fn later_sees_less()
    ensures { LaterSeesLess }
{
    same_is_equal()
}

/// What one entry more changes, at any clock: an insert adds its edge, if that is in the window and
/// the clock is before its own end; a delete takes its edge; all other live edges stay; and the
/// clock becomes the greater of the clock before and the entry's time.
pub fn one_entry_more()
    ensures { OneEntryMore }
{
    same_is_equal()
}

/// A delete takes each insert of its edge before it.
pub fn delete_takes_all_before()
    ensures { DeleteTakesAllBefore }
{
    same_is_equal()
}

/// An insert is live while it is in the window and the clock is before its own end, also a late
/// one, and also one after a delete of its edge.
pub fn last_insert_is_seen()
    ensures { LastInsertIsSeen }
{}
