//! The tree of a source.

ghost use Rattle.std.specs.Prelude.{◌≡◌, ◌↔◌, [], None, true, false, is_err};
ghost use Rattle.std.specs.Prelude.{IfOk, IfNone, IfSome, IsTrue, OnOk, OnErr};
ghost use Rattle.delta_tree.specs.Nodes.{node_id, node_of, value_of, IsTree};
ghost use Rattle.delta_tree.specs.Paths.{HangsBy, IsPathTo};
ghost use Rattle.delta_tree.specs.Changes.{IsFloor};
ghost use Rattle.tree_insert.specs.Trees.{IsLater};
ghost use Rattle.source_tree.specs.Ends.{AreReached};
ghost use Rattle.source_tree.specs.Taking.{HasTaken, IsReady};

use crate::change::{Change, EndChange, Reached};
use crate::product::ProductGraph;
use crate::reached::{keep_greatest, list_values};
use crate::report::{ChangeReport, empty_report};
use crate::steps::change_tree;
use delta_tree::{NodeId, Tree};
use edge_store::EdgeId;
use rpq_base::Memory;
use std::alloc::Global;
use std::marker::Model;
use tree_insert::Search;

/// The tree of a source, and what the last change did to it.
///
/// Contracts see it as `SourceValue` of `specs/`.
#[derive(Drop)]
pub struct SourceTree {
    alloc: Global,
    tree: Tree,
    /// What the last change did to the tree.
    report: ChangeReport,
    /// What came of the last change.
    outcome: Result<(), Memory>,
}

impl Model for SourceTree {
    ghost use Rattle.std.specs.Prelude.{is_err};
    ghost use Rattle.source_tree.specs.Ends.{SourceValue};

    ghost Value = { SourceValue };

    ghost view = { λ source. record {
      tree = source.tree;
      moved = source.report.moved.items;
      log = source.report.log.items;
      touched = source.report.touched;
      broken = is_err source.outcome;
    } };
}

impl SourceTree {
    /// A tree without nodes for the source with this number. The only error is [`Memory`].
    pub fn new(alloc: Global, root: u32) -> Result<SourceTree, Memory>
        ensures root { IfOk result (λ source. source.tree.root ≡ root) }
        ensures bare { IfOk result (λ source. source.tree.nodes ≡ []) }
        ensures puts { IfOk result (λ source. source.tree.puts ≡ 0) }
        ensures unbroken { IfOk result (λ source. source.broken ≡ false) }
    {
        Ok(SourceTree {
            alloc,
            tree: Tree::new(alloc, root)?,
            report: empty_report(alloc),
            outcome: Ok(()),
        })
    }

    /// The number of the source.
    pub fn root(&self) -> u32
        ensures root { result ≡ self.now.tree.root }
        ensures tree { IsTree self.now.tree }
    {
        self.tree.root()
    }

    /// The value of the node of this vertex with this state, or none where there is no such node,
    /// by one look-up.
    pub fn value_of(&self, v: u32, s: u32) -> Option<u64>
        ensures { result ≡ value_of self.now.tree (node_id v s) }
    {
        self.tree.value_of(v, s)
    }

    /// Whether the node of this vertex with this state hangs by the edge, by one look-up.
    pub fn hangs_by(&self, v: u32, s: u32, edge: EdgeId) -> bool
        ensures { IsTrue result ↔ HangsBy self.now.tree edge (node_id v s) }
    {
        self.tree.hangs_by(v, s, edge)
    }

    /// The edges of the path from the source to the node of this vertex with this state, or none
    /// where there is no such node. The only error is [`Memory`]. This costs a look-up for each
    /// edge.
    pub fn path_to(&self, v: u32, s: u32) -> Result<Option<Vec<EdgeId>>, Memory>
        ensures none { IfOk result (λ found.
            (found ≡ None) ↔ (node_of self.now.tree (node_id v s) ≡ None)) }
        ensures path { IfOk result (λ found. IfSome found (λ path.
            IsPathTo self.now.tree (node_id v s) path.items)) }
    {
        self.tree.path_to(v, s)
    }

    /// Whether there is no node.
    pub fn is_bare(&self) -> bool
        ensures { IsTrue result ↔ (self.now.tree.nodes ≡ []) }
    {
        self.tree.len() == 0
    }

    /// A number that no node's value is below, or none where there is no node.
    pub fn least(&self) -> Option<u64>
        ensures none { IfNone result (self.now.tree.nodes ≡ []) }
        ensures floor { IfSome result (IsFloor self.now.tree) }
    {
        self.tree.least()
    }

    /// The vertices that have an end, where these are the final states, in rising order, each with
    /// it. The only error is [`Memory`]. This goes through all nodes, and sorts those with a final
    /// state.
    pub fn reached(&self, finals: &[u32]) -> Result<Vec<Reached>, Memory>
        ensures { IfOk result (λ reached. AreReached finals.now self.now.tree reached.items) }
    {
        let mut reached = list_values(self.alloc, &self.tree, finals)?;
        keep_greatest(&mut reached);
        Ok(reached)
    }

    /// The places where nodes came or went with the last change.
    pub fn moved(&self) -> &[NodeId]
        ensures { result.now ≡ self.now.moved }
    {
        &self.report.moved
    }

    /// The ends that came or went with the last change.
    pub fn log(&self) -> &[EndChange]
        ensures { result.now ≡ self.now.log }
    {
        &self.report.log
    }

    /// Whether the last change touched the tree.
    pub fn is_touched(&self) -> bool
        ensures { result ≡ self.now.touched }
    {
        self.report.touched
    }

    /// What came of the last change: an error where memory ran out in it.
    pub fn outcome(&self) -> Result<(), Memory>
        ensures { is_err result ≡ self.now.broken }
    {
        self.outcome
    }

    /// Takes a change of the store into account, which the store has taken before, in the room of a
    /// search. The only error is [`Memory`], after which the tree is of no use.
    pub fn take(
        &mut self,
        search: &mut Search,
        product: &ProductGraph<'_>,
        change: Change,
    ) -> Result<(), Memory>
        requires ready { IsReady change product.now self.old }
        ensures taken { OnOk result (HasTaken change product.now self.old self.new) }
        ensures later { IsLater self.old.tree self.new.tree }
        ensures broken { OnErr result (self.new.broken ≡ true) }
    {
        self.outcome = change_tree(
            self.alloc,
            search,
            &mut self.tree,
            product,
            change,
            &mut self.report,
        );
        self.outcome
    }
}
