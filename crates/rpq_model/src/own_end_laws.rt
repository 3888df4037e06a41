//! Laws of inserts with ends of their own. The functions compute nothing: their contracts are the
//! laws, and a law that rests on one of the layer below calls it.

ghost use Rattle.rpq_model.specs.OwnEndLaws.{InsertsHaveDeadlines, LiveBelowItsEnd};
ghost use Rattle.rpq_model.specs.OwnEndLaws.{EarlyEndNeverLives, EndBeyondTheWindow};
ghost use Rattle.rpq_model.specs.OwnEndLaws.{LaterDeadlineDecides, TickAtTheEnd};

use rpq_base::same_is_equal;

/// Each insert has one deadline: that of its time, or its own end where that is less.
pub fn inserts_have_deadlines()
    ensures { InsertsHaveDeadlines }
{}

/// While it is in the window, an insert that no later entry deletes is live exactly below its own
/// end: the end isn't rounded to the slide.
pub fn live_below_its_end()
    ensures { LiveBelowItsEnd }
{
    same_is_equal()
}

/// An insert whose end isn't above its own time is never live.
pub fn early_end_never_lives()
    ensures { EarlyEndNeverLives }
{
    same_is_equal()
}

/// An end that isn't below the deadline of the insert's time changes nothing.
pub fn end_beyond_the_window()
    ensures { EndBeyondTheWindow }
{}

/// Of two inserts of an edge, with ends of their own or without, the later deadline decides: a
/// plain insert outlives another one's end.
pub fn later_deadline_decides()
    ensures { LaterDeadlineDecides }
{
    same_is_equal()
}

/// Where each insert of an edge has an end, a tick at the last of them takes the edge out.
pub fn tick_at_the_end()
    ensures { TickAtTheEnd }
{
    same_is_equal()
}
