//! The answers of a query with their ends, as rows. Its index keeps the rows, and those of stale
//! roots alone are made anew.

ghost use Rattle.std.specs.Prelude.{◌≡◌, ◌<◌, ℕ, List, length, Contains, IfOk, OnOk, false};
ghost use Rattle.rpq_base.specs.declared.data.Entry.{Entry as EntryTaken};
ghost use Rattle.rpq_model.specs.Query.{path_query};
ghost use Rattle.answer_view.specs.View.{AreRowsOf};
ghost use Rattle.query_index.specs.Answering.{HasHistory};
ghost use Rattle.query_index.specs.Index.{IsIndexFor};
ghost use Rattle.query_index.specs.Shown.{HasRows, HaveNames, IsStale, ShowAllBut};
ghost use Rattle.query_index.specs.Showing.{HaveShown, StandsStill};
ghost use Rattle.query_index.specs.declared.stale.StaleRoots.TheVariants.{Every};

use crate::answering::mode_of;
use crate::index::QueryIndex;
use crate::stale::StaleRoots;
use crate::targets::renew;
use answer_rows::Rows;
use delta_forest::{Forest, kept_is_best};
use index_laws::index_tells_answers;
use name_table::Names;
use query_file::Compiled;
use rpq_base::Memory;
use rpq_model::Mode;
use std::alloc::Global;
use std::mem::replace;

impl QueryIndex {
    /// The answers of the query with their ends. So many names have numbers. The only error is
    /// [`Memory`], and the index goes on after it.
    ///
    /// The rows are shared with those that were shown last, but for the rows of roots whose trees
    /// were touched since then. It goes through these trees, and puts the targets of each root in
    /// the order of their names.
    pub fn rows(
        &mut self,
        alloc: Global,
        query: &Compiled,
        names: &Names,
        named: u32,
    ) -> Result<Rows, Memory>
        requires named { named ≡ length names.now }
        requires index { HasHistory query.now names.now self.old }
        ensures kept { StandsStill query.now names.now self.old self.new }
        ensures rows { IfOk result (λ rows. (history : List EntryTaken) (fed : ℕ) →
            IsIndexFor query.now history fed names.now self.old →
            AreRowsOf (path_query query.now.def) history rows) }
    {
        let mode = mode_of(query);
        // these laws, and the count of the rows, are called for their clauses
        kept_is_best();
        index_tells_answers();
        let rows = self.fresh_rows(alloc, mode, names, named)?;
        let _count = rows.count();
        Ok(rows)
    }

    /// What the forest shows, of which the index keeps a copy. Where memory runs out, it keeps no
    /// rows, and all roots are stale. It keeps none either while no name has a number: whoever
    /// looks at the start alone pays nothing afterwards.
    fn fresh_rows(
        &mut self,
        alloc: Global,
        mode: Mode,
        names: &Names,
        named: u32,
    ) -> Result<Rows, Memory>
        requires named { named ≡ length names.now }
        requires unbroken { self.old.forest.broken ≡ false }
        requires rows { HasRows mode names.now self.old }
        ensures clock { self.new.clock ≡ self.old.clock }
        ensures forest { self.new.forest ≡ self.old.forest }
        ensures kept { HasRows mode names.now self.new }
        ensures shown { IfOk result (HaveShown mode names.now self.old.forest) }
    {
        if named == 0 {
            return Ok(Rows::new(alloc));
        }
        let stale = replace(&mut self.stale, StaleRoots::Every); // until the rows are fresh
        let mut rows = replace(&mut self.shown, Rows::new(alloc));
        renew_stale(alloc, &mut rows, mode, &self.forest, names, named, &stale)?;
        self.shown = rows.copy()?;
        self.stale = stale.emptied(alloc);
        Ok(rows)
    }
}

/// Makes the rows of the stale roots anew.
fn renew_stale(
    alloc: Global,
    rows: &mut Rows,
    mode: Mode,
    forest: &Forest,
    names: &Names,
    named: u32,
    stale: &StaleRoots,
) -> Result<(), Memory>
    requires named { named ≡ length names.now }
    requires unbroken { forest.now.broken ≡ false }
    requires names { HaveNames names.now forest.now }
    requires rows { ShowAllBut (IsStale stale.now) mode names.now forest.now rows.old }
    ensures { OnOk result (HaveShown mode names.now forest.now rows.new) }
{
    match stale {
        StaleRoots::Every => renew_every(alloc, rows, mode, forest, names, named),
        StaleRoots::Roots(roots) => {
            renew_each(alloc, rows, mode, forest, names, named, roots.as_slice())
        }
    }
}

/// Makes the rows of all roots anew.
fn renew_every(
    alloc: Global,
    rows: &mut Rows,
    mode: Mode,
    forest: &Forest,
    names: &Names,
    named: u32,
) -> Result<(), Memory>
    requires named { named ≡ length names.now }
    requires unbroken { forest.now.broken ≡ false }
    requires names { HaveNames names.now forest.now }
    requires rows { ShowAllBut (IsStale Every) mode names.now forest.now rows.old }
    ensures { OnOk result (HaveShown mode names.now forest.now rows.new) }
{
    for root in 0..named {
        renew(alloc, rows, mode, forest, names, root)?;
    }
    Ok(())
}

/// Makes the rows of these roots anew.
fn renew_each(
    alloc: Global,
    rows: &mut Rows,
    mode: Mode,
    forest: &Forest,
    names: &Names,
    named: u32,
    roots: &[u32],
) -> Result<(), Memory>
    requires named { named ≡ length names.now }
    requires unbroken { forest.now.broken ≡ false }
    requires names { HaveNames names.now forest.now }
    requires rows { ShowAllBut (Contains roots.now) mode names.now forest.now rows.old }
    ensures { OnOk result (HaveShown mode names.now forest.now rows.new) }
{
    for root in roots {
        // a root without a name has no row
        if *root >= named {
            continue;
        }
        renew(alloc, rows, mode, forest, names, *root)?;
    }
    Ok(())
}
