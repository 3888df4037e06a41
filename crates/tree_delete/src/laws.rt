//! Laws of removals. The functions do nothing: their contracts are the laws.

ghost use Rattle.tree_delete.specs.Laws.{FewEdgesFewSteps, NoCutNoStep};
ghost use Rattle.tree_delete.specs.Laws.{RemovalElsewhereKeepsOptimal, RemovalsAreRemovals};
ghost use Rattle.tree_delete.specs.Laws.{StepsAreWithinCut};

/// What the removal of a store does is a removal of the edge.
pub fn removals_are_removals()
    ensures { RemovalsAreRemovals }
{}

/// Where the edge stood on no path, no step is counted.
pub fn no_cut_no_step()
    ensures { NoCutNoStep }
{}

/// A removal takes at most a step for each node on whose path the edge stood and for each edge that
/// ends at one of these, and two for each edge that leaves one, whatever else the tree and the store
/// have. So where few edges stand at each vertex, the steps are few for each node that is cut.
pub fn steps_are_within_cut()
    ensures within { StepsAreWithinCut }
    ensures few { FewEdgesFewSteps }
{}

/// Where no node of an optimal tree hangs by an edge that is removed, the tree is so still.
pub fn removal_elsewhere_keeps_optimal()
    ensures { RemovalElsewhereKeepsOptimal }
{}
