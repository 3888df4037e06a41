//! What follows in an index after its sources took a change.

ghost use Rattle.std.specs.Prelude.{◌≡◌, ◌≢◌, ◌↔◌, ◌∷◌, ℕ, [], true, false, IfOk, OnOk, IsTrue};
ghost use Rattle.std.specs.Ordering.{nat_cmp};
ghost use Rattle.std.specs.List.Sorted.{IsStrictlySortedBy};
ghost use Rattle.delta_tree.specs.Nodes.{IsTree};
ghost use Rattle.source_tree.specs.Taking.{is_raise};
ghost use Rattle.source_index.specs.Dues.{due_of};
ghost use Rattle.source_table.specs.Sources.{AreApart};
ghost use Rattle.delta_forest.specs.Keeping.{IsDueFor};
ghost use Rattle.delta_forest.specs.Settling.{AreFound, AreSettled, FindsAt, FindsMore, HoldsAnew, is_sooner, moved_of};

use crate::index::{Findings, Index};
use delta_tree::NodeId;
use rpq_base::Memory;
use source_index::{Dues, Holders};
use source_tree::{Change, SourceTree};

/// Holds the root at a place where a raise brought a node, and no more where another change took
/// one.
fn hold_at(holders: &mut Holders, root: u32, id: NodeId, change: Change) -> Result<(), Memory>
    ensures { OnOk result (HoldsAnew holders.old holders.new root (is_raise change) (id ∷ [])) }
{
    match change {
        Change::Raise { .. } => {
            holders.add(id, root)?;
            Ok(())
        }
        Change::Remove(_) => {
            holders.drop(id, root);
            Ok(())
        }
        Change::Expire(_) => {
            holders.drop(id, root);
            Ok(())
        }
    }
}

/// Does so at each place where a node came or went.
fn hold(holders: &mut Holders, source: &SourceTree, root: u32, change: Change) -> Result<(), Memory>
    ensures { OnOk result
        (HoldsAnew holders.old holders.new root (is_raise change) source.now.moved) }
{
    for id in source.moved() {
        hold_at(holders, root, *id, change)?;
    }
    Ok(())
}

/// Where the change touched the tree, holds the root anew, and tells the root and the ends that
/// changed.
fn follow_touch(
    holders: &mut Holders,
    found: &mut Findings,
    source: &SourceTree,
    root: u32,
    change: Change,
) -> Result<(), Memory>
    ensures held { OnOk result
        (HoldsAnew holders.old holders.new root (is_raise change) (moved_of source.now)) }
    ensures found { OnOk result (FindsMore found.old found.new source.now root) }
{
    if !source.is_touched() {
        return Ok(());
    }
    hold(holders, source, root, change)?;
    found.touched.push(root)?;
    found.log.extend_from_slice(source.log())?;
    Ok(())
}

/// Whether a node may be due before the number that is noted. After a raise that is so of a new
/// node alone, since all others are due as before or later. An expiry has taken the number.
fn may_be_sooner(source: &SourceTree, change: Change) -> bool
    ensures { result ≡ is_sooner change source.now }
{
    match change {
        Change::Raise { .. } => !source.moved().is_empty(),
        Change::Remove(_) => source.is_touched(),
        Change::Expire(_) => true,
    }
}

/// Notes when the first node of the tree may be due, where there is a node.
fn note_least(dues: &mut Dues, source: &SourceTree, root: u32) -> Result<(), Memory>
    ensures due { OnOk result (IsDueFor dues.new root source.now.tree) }
    ensures others { (each : ℕ) → each ≢ root → due_of dues.new each ≡ due_of dues.old each }
{
    match source.least() {
        Some(least) => {
            dues.note(root, least)?;
            Ok(())
        }
        None => Ok(()),
    }
}

/// Does so where a node may be due sooner.
fn note(dues: &mut Dues, source: &SourceTree, root: u32, change: Change) -> Result<(), Memory>
    ensures due { OnOk result
        (is_sooner change source.now ≡ true → IsDueFor dues.new root source.now.tree) }
    ensures same { is_sooner change source.now ≡ false →
        due_of dues.new root ≡ due_of dues.old root }
    ensures others { (each : ℕ) → each ≢ root → due_of dues.new each ≡ due_of dues.old each }
{
    if may_be_sooner(source, change) {
        note_least(dues, source, root)?;
        return Ok(());
    }
    Ok(())
}

/// Follows what the change did to the tree of a source, and answers whether no node is left.
fn follow(
    holders: &mut Holders,
    dues: &mut Dues,
    found: &mut Findings,
    source: &SourceTree,
    change: Change,
) -> Result<bool, Memory>
    ensures tree { IsTree source.now.tree }
    ensures held { OnOk result (HoldsAnew holders.old holders.new source.now.tree.root
        (is_raise change) (moved_of source.now)) }
    ensures due { OnOk result (is_sooner change source.now ≡ true →
        IsDueFor dues.new source.now.tree.root source.now.tree) }
    ensures same { is_sooner change source.now ≡ false →
        due_of dues.new source.now.tree.root ≡ due_of dues.old source.now.tree.root }
    ensures others { (each : ℕ) → each ≢ source.now.tree.root →
        due_of dues.new each ≡ due_of dues.old each }
    ensures found { OnOk result (FindsMore found.old found.new source.now source.now.tree.root) }
    ensures bare { IfOk result (λ bare. IsTrue bare ↔ (source.now.tree.nodes ≡ [])) }
{
    let root = source.root();
    follow_touch(holders, found, source, root, change)?;
    note(dues, source, root, change)?;
    Ok(source.is_bare())
}

/// Follows what the change did to the tree of a root, where it has one; a source without nodes
/// goes.
fn settle(index: &mut Index, found: &mut Findings, root: u32, change: Change) -> Result<(), Memory>
    requires apart { AreApart index.old.sources }
    ensures settled { OnOk result (AreSettled change index.old index.new (root ∷ [])) }
    ensures found { OnOk result (FindsAt index.old.sources found.old found.new root) }
{
    let Some(source) = index.sources.get(root) else {
        return Ok(());
    };
    if follow(&mut index.holders, &mut index.dues, found, source, change)? {
        index.sources.remove(root);
    }
    Ok(())
}

/// Does so for each of these roots.
pub(crate) fn settle_all(
    index: &mut Index,
    found: &mut Findings,
    roots: &[u32],
    change: Change,
) -> Result<(), Memory>
    requires apart { AreApart index.old.sources }
    requires sorted { IsStrictlySortedBy nat_cmp roots.now }
    requires touched { found.old.touched.items ≡ [] }
    requires log { found.old.log.items ≡ [] }
    ensures settled { OnOk result (AreSettled change index.old index.new roots.now) }
    ensures found { OnOk result (AreFound index.old.sources roots.now found.new) }
{
    for root in roots {
        settle(index, found, *root, change)?;
    }
    Ok(())
}
