//! What holds of engines and of forests that are kept, without a call.

ghost use Rattle.path_engine.specs.Alike.{StandsForAlike};
ghost use Rattle.path_engine.specs.Staying.{NodesStay};

use rpq_model::{edges_by_places, live_below_deadline, live_by_places};

/// A node whose value no entry of a front changes is the same node after the front.
pub fn nodes_stay()
    ensures { NodesStay }
{}

/// An engine that stands for a history stands for each other one that its queries see alike.
pub fn stands_for_alike()
    ensures { StandsForAlike }
{
    // these are called for their clauses
    live_by_places();
    edges_by_places();
    live_below_deadline();
}
