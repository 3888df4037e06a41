//! Laws of forests. The functions do nothing: their contracts are the laws.

ghost use Rattle.delta_forest.specs.Laws.{EachHasAnEnd, EarlyExpiryTouchesNot, EndsAreOne};
ghost use Rattle.delta_forest.specs.Laws.{KeptIsBest, RaiseElsewhereTouchesNot};
ghost use Rattle.delta_forest.specs.Laws.{RemovalElsewhereTouchesNot};

/// What an indexed forest keeps is the best of its store.
pub fn kept_is_best()
    ensures { KeptIsBest }
{}

/// A root and a vertex have one end, or none.
pub fn ends_are_one()
    ensures { EndsAreOne }
{}

/// Each root and vertex have an end, or none.
pub fn each_has_an_end()
    ensures { EachHasAnEnd }
{}

/// A tree is reported as touched for a reason alone: an edge leaves its root or a vertex that it
/// reaches, or one of its values has come. So who makes the rows of the touched trees anew, as a
/// view does, goes through no tree that a change doesn't concern.
pub fn touched_for_a_reason()
    ensures raise { RaiseElsewhereTouchesNot }
    ensures removal { RemovalElsewhereTouchesNot }
    ensures expiry { EarlyExpiryTouchesNot }
{}
