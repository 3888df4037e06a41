//! The answers of a query, as rows.

ghost use Rattle.std.specs.Prelude.{◌≡◌, ◌<◌, ◌++◌, [], length, map, IfNone, IfSome, IfOk, OnOk, OnErr};
ghost use Rattle.std.specs.Option.{unwrap_or};
ghost use Rattle.answer_rows.specs.Answers.{AreRows, AreTargets, KeepsOtherRows};
ghost use Rattle.answer_rows.specs.Answers.{pair, row_of, until_of};
ghost use Rattle.answer_rows.specs.BySource.{answer, answers};
ghost use Rattle.answer_rows.specs.Listing.{listed};

use crate::row::Row;
use crate::target::{Target, end_of};
use rpq_base::{Memory, Name, TryClone, stored_in_all};
use shared_map::SharedMap;
use std::alloc::Global;
use std::marker::Model;

/// The pairs that answer a query, each with its end.
///
/// Contracts see the list of the answers, sorted by source and then target, each pair once. A
/// source's row is shared by the copies that hold it, and so is each chunk of sources.
#[derive(Debug)]
pub struct Rows {
    pub(crate) alloc: Global,
    pub(crate) rows: SharedMap<Name, Row>,
    pub(crate) count: u128,
}

impl Drop for Rows {
    fn drop(self) {
        let Rows {
            alloc: _alloc,
            rows: _rows,
            count: _count,
        } = self;
    }
}

impl Model for Rows {
    ghost use Rattle.std.specs.Prelude.{List};
    ghost use Rattle.answer_rows.specs.Answers.{Answer};
    ghost use Rattle.answer_rows.specs.BySource.{AreHeld, answers};

    ghost Value = { List Answer };

    ghost view = { λ held. answers held.rows };

    ghost invariant = { λ held. AreHeld held.rows held.count };
}

impl Rows {
    /// No pairs. Takes no memory.
    pub fn new(alloc: Global) -> Rows
        ensures { result ≡ [] }
    {
        Rows {
            alloc,
            rows: SharedMap::new(alloc),
            count: 0,
        }
    }

    /// The number of pairs. Takes no time that grows with it.
    pub fn count(&self) -> u128
        ensures count { result ≡ length self.now }
        ensures sorted { AreRows self.now }
    {
        self.count
    }

    /// The targets of a source, in order; none where the source has no pair.
    ///
    /// The time grows with the logarithm of the number of sources.
    pub fn row(&self, from: &Name) -> Option<&[Target]>
        ensures none { IfNone result (row_of self.now from.now ≡ []) }
        ensures row { IfSome result (λ row. row.now ≡ row_of self.now from.now) }
        ensures some { IfSome result (λ row. 0 < length row.now) }
        ensures sorted { AreTargets (row_of self.now from.now) }
    {
        match self.rows.get(from) {
            Some(row) => Some(row.targets()),
            None => None,
        }
    }

    /// The targets of a source, in order.
    pub(crate) fn targets(&self, from: &Name) -> &[Target]
        ensures row { result.now ≡ row_of self.now from.now }
        ensures sorted { AreTargets result.now }
    {
        match self.row(from) {
            Some(row) => row,
            None => &[],
        }
    }

    /// The end of a pair, or none where the pair isn't there.
    pub fn until(&self, from: &Name, to: &Name) -> Option<u64>
        ensures { result ≡ until_of self.now (pair from.now to.now) }
    {
        end_of(self.targets(from), to)
    }

    /// The pairs, in order, with their ends: each source with each of its targets. Takes memory for
    /// the list alone.
    pub fn list(&self) -> Result<Vec<(&Name, &Target)>, Memory>
        ensures { IfOk result (λ list. listed list.items ≡ self.now) }
    {
        let mut list = Vec::new(self.alloc);
        let chunks = self.rows.chunks();
        for chunk in chunks {
            push_sources(&mut list, chunk.entries())?;
        }
        Ok(list)
    }

    /// Equal rows, which share all sources with these. Takes a step for each chunk of sources.
    pub fn copy(&self) -> Result<Rows, Memory>
        ensures { IfOk result (λ copy. copy ≡ self.now) }
    {
        Ok(Rows {
            alloc: self.alloc,
            rows: self.rows.share()?,
            count: self.count,
        })
    }

    /// Puts these targets in the place of the source's row. Without a target, the source has no
    /// pair afterwards.
    ///
    /// The time grows with the logarithm of the number of sources. The chunk of sources is copied
    /// first where it is shared.
    pub fn set(&mut self, from: &Name, targets: Vec<Target>) -> Result<(), Memory>
        requires { AreTargets targets.items }
        ensures row { OnOk result (row_of self.new from.now ≡ targets.items) }
        ensures others { OnOk result (KeepsOtherRows from.now self.old self.new) }
        ensures unchanged { OnErr result (self.new ≡ self.old) }
    {
        if targets.is_empty() {
            return self.remove(from);
        }
        let row = Row::new(self.alloc, targets)?;
        self.insert(from.copy()?, row)
    }

    /// Takes a source's row away. Takes memory only where its chunk is shared.
    pub(crate) fn remove(&mut self, from: &Name) -> Result<(), Memory>
        ensures row { OnOk result (row_of self.new from.now ≡ []) }
        ensures others { OnOk result (KeepsOtherRows from.now self.old self.new) }
        ensures unchanged { OnErr result (self.new ≡ self.old) }
    {
        let old = self.rows.remove(from)?;
        self.count -= target_count(old);
        Ok(())
    }

    /// Puts this row in the place of the source's.
    fn insert(&mut self, from: Name, row: Row) -> Result<(), Memory>
        requires some { 0 < length row }
        requires sorted { AreTargets row }
        ensures row { OnOk result (row_of self.new from ≡ row) }
        ensures others { OnOk result (KeepsOtherRows from self.old self.new) }
        ensures unchanged { OnErr result (self.new ≡ self.old) }
    {
        let gained = row.targets().len() as u128;
        let most = stored_in_all(self.count, gained)?;
        let old = self.rows.insert(from, row)?;
        self.count = most - target_count(old);
        Ok(())
    }
}

/// The number of targets of a row, or 0 where there is none.
fn target_count(row: Option<Row>) -> u128
    ensures { result ≡ length (unwrap_or row []) }
{
    match row {
        Some(row) => row.targets().len() as u128,
        None => 0,
    }
}

/// Adds each source with each of its targets, in order.
fn push_sources<'a>(
    list: &mut Vec<(&'a Name, &'a Target)>,
    sources: &'a [(Name, Row)],
) -> Result<(), Memory>
    ensures { OnOk result (listed list.new.items ≡ listed list.old.items ++ answers sources.now) }
{
    for (from, row) in sources {
        push_targets(list, from, row.targets())?;
    }
    Ok(())
}

/// Adds a source with each of its targets, in order.
fn push_targets<'a>(
    list: &mut Vec<(&'a Name, &'a Target)>,
    from: &'a Name,
    row: &'a [Target],
) -> Result<(), Memory>
    ensures { OnOk result (listed list.new.items
        ≡ listed list.old.items ++ map (answer from.now) row.now) }
{
    for target in row {
        list.push((from, target))?;
    }
    Ok(())
}
