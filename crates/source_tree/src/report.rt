//! What a change did to a tree, as a source reports it.

ghost use Rattle.std.specs.Prelude.{◌≡◌, [], OnOk};
ghost use Rattle.delta_tree.specs.Nodes.{TreeValue};
ghost use Rattle.source_tree.specs.Product.{AreFinals, AreHeld};
ghost use Rattle.source_tree.specs.Telling.{IsInOrder, Tells, Touches, moved_ids, moves};
ghost use Rattle.source_tree.specs.declared.change.Change.{Change};

use crate::change::EndChange;
use crate::ends::log_ends;
use crate::product::ProductGraph;
use crate::room::{add, empty_for};
use delta_tree::{NodeId, Shift, Tree};
use rpq_base::Memory;
use std::alloc::Global;
use tree_insert::Search;

/// What the last change did to the tree.
#[derive(Drop)]
pub(crate) struct ChangeReport {
    /// The places where nodes came or went.
    pub moved: Vec<NodeId>,
    /// The ends that came or went.
    pub log: Vec<EndChange>,
    /// Whether the tree was touched.
    pub touched: bool,
}

/// A report of nothing. It takes no memory.
pub(crate) fn empty_report(alloc: Global) -> ChangeReport {
    ChangeReport {
        moved: Vec::new(alloc),
        log: Vec::new(alloc),
        touched: false,
    }
}

/// Whether a node comes or goes, by the values before and after.
fn is_moved(before: Option<u64>, after: Option<u64>) -> bool
    ensures { result ≡ moves before after }
{
    before.is_some() != after.is_some()
}

/// Lists the places where a node came or went, in an empty list.
fn list_moved(shifts: &[Shift], moved: &mut Vec<NodeId>) -> Result<(), Memory>
    ensures { OnOk result (moved.old.items ≡ [] → moved.new.items ≡ moved_ids shifts.now) }
{
    for shift in shifts {
        if is_moved(shift.before, shift.after) {
            add(moved, shift.id)?;
        }
    }
    Ok(())
}

/// Reports what the change did that these shifts are of.
fn fill(
    tree: &Tree,
    product: &ProductGraph<'_>,
    shifts: &[Shift],
    report: &mut ChangeReport,
) -> Result<(), Memory>
    requires finals { AreFinals product.now.dfa product.now.finals }
    ensures { OnOk result ((change : Change) (old : TreeValue) →
        Touches change old tree.now shifts.now → AreHeld product.now.holders old →
        IsInOrder product.now.finals shifts.now →
        Tells change product.now.finals old tree.now
        report.new.moved.items report.new.log.items report.new.touched) }
{
    report.touched = !shifts.is_empty();
    empty_for(&mut report.moved, shifts.len());
    list_moved(shifts, &mut report.moved)?;
    empty_for(&mut report.log, shifts.len());
    log_ends(tree, product, shifts, &mut report.log)
}

/// Reports what the change did that the search made.
pub(crate) fn report_search(
    tree: &Tree,
    product: &ProductGraph<'_>,
    search: &mut Search,
    report: &mut ChangeReport,
) -> Result<(), Memory>
    requires finals { AreFinals product.now.dfa product.now.finals }
    ensures { OnOk result ((change : Change) (old : TreeValue) →
        Touches change old tree.now search.old.shifts → AreHeld product.now.holders old →
        Tells change product.now.finals old tree.now
        report.new.moved.items report.new.log.items report.new.touched) }
{
    // Where one state is final, no order is needed.
    if product.final_states().len() != 1 {
        search.sort_shifts();
    }
    fill(tree, product, search.shifts(), report)
}

/// Reports what the change did that these shifts are of, in whatever order.
pub(crate) fn report_shifts(
    tree: &Tree,
    product: &ProductGraph<'_>,
    shifts: &mut Vec<Shift>,
    report: &mut ChangeReport,
) -> Result<(), Memory>
    requires finals { AreFinals product.now.dfa product.now.finals }
    ensures { OnOk result ((change : Change) (old : TreeValue) →
        Touches change old tree.now shifts.old.items → AreHeld product.now.holders old →
        Tells change product.now.finals old tree.now
        report.new.moved.items report.new.log.items report.new.touched) }
{
    if product.final_states().len() != 1 {
        shifts.sort_unstable_by_key(|each| each.id.vertex);
    }
    fill(tree, product, shifts, report)
}
