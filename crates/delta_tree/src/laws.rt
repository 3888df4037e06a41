//! Laws of trees. The functions do nothing: their contracts are the laws.

ghost use Rattle.delta_tree.specs.Laws.{EachNodeHasAPath, PathsAreOne, PathsAreWalks};
ghost use Rattle.delta_tree.specs.Laws.{BelowGoesByParents, ParentsComeFirst, RootHasNoNode};
ghost use Rattle.delta_tree.specs.Laws.{PutsAreOfOneNode, ExpiryGoesByValue};

/// Each node of a tree has one path from the root. This is a walk along edges that join, and an
/// edge stands on it exactly where the node hangs by this edge or its parent is below it.
pub fn paths_of_trees()
    ensures some { EachNodeHasAPath }
    ensures one { PathsAreOne }
    ensures walks { PathsAreWalks }
    ensures below { BelowGoesByParents }
{}

/// A parent has at least the value of its child, and where it has the same, a lesser stamp. No node
/// stands where the root does.
pub fn order_of_trees()
    ensures parents { ParentsComeFirst }
    ensures root { RootHasNoNode }
{}

/// A put makes one node what it says, and an expiry leaves exactly the nodes above the clock.
pub fn changes_of_trees()
    ensures put { PutsAreOfOneNode }
    ensures expiry { ExpiryGoesByValue }
{}
