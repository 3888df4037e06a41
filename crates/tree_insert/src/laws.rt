//! Laws of the best and of trees. The functions do nothing: their contracts are the laws.

ghost use Rattle.tree_insert.specs.Laws.{BareIsOptimal, BestIsSettled, ExpiryKeepsOptimal};
ghost use Rattle.tree_insert.specs.Laws.{NoRiseNoStep, OneBest, PathsAreWays};
ghost use Rattle.tree_insert.specs.Laws.{RaiseElsewhereKeepsOptimal, RaisesAreRaises};

/// A vertex and a state have one best at most.
pub fn one_best()
    ensures { OneBest }
{}

/// A path is a way for the numbers up to its least value, and for no others.
pub fn paths_are_ways()
    ensures { PathsAreWays }
{}

/// Numbers are the best everywhere exactly where each is that of a path and no edge can raise one.
pub fn best_is_settled()
    ensures { BestIsSettled }
{}

/// After an expiry of the edges and of a tree with the same number an optimal tree is so still.
pub fn expiry_keeps_optimal()
    ensures { ExpiryKeepsOptimal }
{}

/// A tree without nodes is optimal where no edge leaves its root with a step from the start.
pub fn bare_is_optimal()
    ensures { BareIsOptimal }
{}

/// Where an edge that is raised goes on from no place of an optimal tree, the tree is so still.
pub fn raise_elsewhere_keeps_optimal()
    ensures { RaiseElsewhereKeepsOptimal }
{}

/// What the raise of a store does is a raise of the edge.
pub fn raises_are_raises()
    ensures { RaisesAreRaises }
{}

/// Where a search raises nothing it counts no step.
pub fn no_rise_no_step()
    ensures { NoRiseNoStep }
{}
