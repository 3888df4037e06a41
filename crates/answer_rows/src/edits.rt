//! Changes of one pair.

ghost use Rattle.std.specs.Prelude.{◌≡◌, ◌+◌, ◌<◌, [], ◌∷◌, length, None, Some, if◌then◌else◌};
ghost use Rattle.std.specs.Prelude.{IsTrue, IfOk, OnOk, OnErr};
ghost use Rattle.answer_rows.specs.Answers.{AreTargets, KeepsOtherPairs, KeepsOtherRows};
ghost use Rattle.answer_rows.specs.Answers.{has_target, pair, row_of, until_of};
ghost use Rattle.answer_rows.specs.BySource.{held_row, with_row};
ghost use Rattle.answer_rows.specs.RowEdits.{target, with_target, without_target};

use crate::row::Row;
use crate::rows::Rows;
use crate::target::{Target, has_target};
use rpq_base::{Memory, Name, TryClone, stored_in_all};
use shared_map::SharedMap;

/// Puts a target into the row of a source, which has one. Answers whether it is new.
fn put_in(
    rows: &mut SharedMap<Name, Row>,
    from: &Name,
    to: &Name,
    until: u64,
) -> Result<bool, Memory>
    requires some { 0 < length (held_row rows.old from.now) }
    requires sorted { AreTargets (held_row rows.old from.now) }
    ensures row { OnOk result (rows.new ≡ with_row rows.old from.now
        (with_target (held_row rows.old from.now) to.now until)) }
    ensures gained { IfOk result (λ gained.
        length (with_target (held_row rows.old from.now) to.now until)
        ≡ length (held_row rows.old from.now) + (if gained then 1 else 0)) }
    ensures unchanged { OnErr result (rows.new ≡ rows.old) }
{
    rows.get_mut(from)?.put(to, until)
}

/// Takes a target out of the row of a source.
fn take_out(rows: &mut SharedMap<Name, Row>, from: &Name, to: &Name) -> Result<(), Memory>
    requires sorted { AreTargets (held_row rows.old from.now) }
    requires there { IsTrue (has_target (held_row rows.old from.now) to.now) }
    ensures row { OnOk result (rows.new ≡ with_row rows.old from.now
        (without_target (held_row rows.old from.now) to.now)) }
    ensures lost { OnOk result (length (without_target (held_row rows.old from.now) to.now) + 1
        ≡ length (held_row rows.old from.now)) }
    ensures unchanged { OnErr result (rows.new ≡ rows.old) }
{
    rows.get_mut(from)?.take(to)
}

impl Rows {
    /// Puts a target into a source's row, which has one.
    fn put_to(&mut self, from: &Name, to: &Name, until: u64) -> Result<(), Memory>
        requires { 0 < length (row_of self.old from.now) }
        ensures row { OnOk result
            (row_of self.new from.now ≡ with_target (row_of self.old from.now) to.now until) }
        ensures others { OnOk result (KeepsOtherRows from.now self.old self.new) }
        ensures unchanged { OnErr result (self.new ≡ self.old) }
    {
        let more = stored_in_all(self.count, 1)?;
        let gained = put_in(&mut self.rows, from, to, until)?;
        if gained {
            self.count = more;
        }
        Ok(())
    }

    /// Takes a target out of a source's row, which has another one too.
    fn take_from(&mut self, from: &Name, to: &Name) -> Result<(), Memory>
        requires there { IsTrue (has_target (row_of self.old from.now) to.now) }
        requires another { 1 < length (row_of self.old from.now) }
        ensures row { OnOk result
            (row_of self.new from.now ≡ without_target (row_of self.old from.now) to.now) }
        ensures others { OnOk result (KeepsOtherRows from.now self.old self.new) }
        ensures unchanged { OnErr result (self.new ≡ self.old) }
    {
        take_out(&mut self.rows, from, to)?;
        self.count -= 1;
        Ok(())
    }

    /// Gives a source one target alone as its row.
    fn put_first(&mut self, from: &Name, to: &Name, until: u64) -> Result<(), Memory>
        ensures row { OnOk result (row_of self.new from.now ≡ target to.now until ∷ []) }
        ensures others { OnOk result (KeepsOtherRows from.now self.old self.new) }
        ensures unchanged { OnErr result (self.new ≡ self.old) }
    {
        let mut targets = Vec::new(self.alloc);
        let to = to.copy()?;
        targets.push(Target { to, until })?;
        self.set(from, targets)
    }

    /// Moves the end of a pair, or puts the pair in with this end.
    ///
    /// The time grows with the logarithms of the numbers of sources and of the source's targets; a
    /// new pair moves the targets behind it. A row that is shared is copied first, and so is its
    /// chunk of sources.
    pub fn put(&mut self, from: &Name, to: &Name, until: u64) -> Result<(), Memory>
        ensures put { OnOk result (until_of self.new (pair from.now to.now) ≡ Some until) }
        ensures others { OnOk result (KeepsOtherPairs (pair from.now to.now) self.old self.new) }
        ensures unchanged { OnErr result (self.new ≡ self.old) }
    {
        match self.row(from) {
            Some(_) => self.put_to(from, to, until),
            None => self.put_first(from, to, until),
        }
    }

    /// Takes a pair away, if it is there.
    ///
    /// The time grows as that of [`Rows::put`]. Takes memory only where the row or its chunk of
    /// sources is shared.
    pub fn take(&mut self, from: &Name, to: &Name) -> Result<(), Memory>
        ensures taken { OnOk result (until_of self.new (pair from.now to.now) ≡ None) }
        ensures others { OnOk result (KeepsOtherPairs (pair from.now to.now) self.old self.new) }
        ensures unchanged { OnErr result (self.new ≡ self.old) }
    {
        let targets = self.targets(from);
        let count = targets.len();
        if !has_target(targets, to) {
            return Ok(());
        }
        if count > 1 {
            return self.take_from(from, to);
        }
        self.remove(from)
    }
}
