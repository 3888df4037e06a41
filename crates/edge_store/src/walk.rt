//! Walks over the edges of one vertex.

ghost use Rattle.std.specs.Prelude.{◌≡◌, ◌+◌, ◌<◌, ◌≤◌, max, length, Some, slice_get};
ghost use Rattle.edge_store.specs.Edges.{AreAtMost, AreAtMostWithin, in_entry, out_entry};
ghost use Rattle.edge_store.specs.Row.{walk_of};

use crate::edge::{HalfEdge, In, Out};
use crate::row::EdgeRow;
use crate::steps::Steps;
use std::marker::Model;
use std::sync::ledger::Ledger;

/// The edges that leave a vertex, which was looked up once.
///
/// Contracts see it as the half edges with their values, in the order of the walk.
#[derive(Drop)]
pub struct Outs<'a> {
    row: Option<&'a EdgeRow>,
}

impl<'a> Model for Outs<'a> {
    ghost use Rattle.std.specs.Prelude.{List, ℕ};
    ghost use Rattle.edge_store.specs.declared.edge.HalfEdge.{HalfEdge};

    ghost Value = { List (HalfEdge × ℕ) };

    ghost use Rattle.edge_store.specs.Row.{walk_of};

    ghost view = { λ outs. walk_of outs.row };
}

impl<'a> Outs<'a> {
    /// The edges of a row that may be there.
    pub(crate) fn new(row: Option<&'a EdgeRow>) -> Outs<'a>
        ensures { result ≡ walk_of row.entry }
    {
        Outs { row }
    }

    /// The number of edges. A walk goes from place 0 to below it.
    pub fn len(&self) -> usize
        ensures { result ≡ length self.now }
    {
        len_of(self.row)
    }

    /// The edge at this place. It counts one step.
    pub fn at<L: Ledger>(&self, place: usize, steps: &mut Steps<L>) -> Out
        requires { place < length self.now }
        ensures there { slice_get self.now place ≡ Some (out_entry result) }
        ensures counted { steps.new ≡ steps.old + 1 }
    {
        let (half, value) = entry_at(self.row, place, steps);
        Out {
            label: half.label,
            to: half.far,
            value,
        }
    }

    /// From this place on the first one whose edge may have a value above the number. No edge is
    /// looked at: of a vertex with many edges it takes one comparison for each 32 of them that are
    /// passed over, and of one with few it answers the place.
    pub fn next_above(&self, place: usize, number: u64) -> usize
        ensures onward { place ≤ result }
        ensures within { result ≤ max place (length self.now) }
        ensures skipped { AreAtMostWithin number self.now place result }
    {
        match self.row {
            Some(row) => row.next_above(place, number),
            None => place,
        }
    }

    /// A number that no edge has a value above: the greatest value that any edge got since the
    /// vertex had none, so it can be more than the greatest one that is left.
    pub fn most(&self) -> u64
        ensures { AreAtMost result self.now }
    {
        match self.row {
            Some(row) => row.most(),
            None => 0,
        }
    }
}

/// The edges that end at a vertex, which was looked up once.
///
/// Contracts see it as the half edges with their values, in the order of the walk.
#[derive(Drop)]
pub struct Ins<'a> {
    row: Option<&'a EdgeRow>,
}

impl<'a> Model for Ins<'a> {
    ghost use Rattle.std.specs.Prelude.{List, ℕ};
    ghost use Rattle.edge_store.specs.declared.edge.HalfEdge.{HalfEdge};

    ghost Value = { List (HalfEdge × ℕ) };

    ghost use Rattle.edge_store.specs.Row.{walk_of};

    ghost view = { λ ins. walk_of ins.row };
}

impl<'a> Ins<'a> {
    /// The edges of a row that may be there.
    pub(crate) fn new(row: Option<&'a EdgeRow>) -> Ins<'a>
        ensures { result ≡ walk_of row.entry }
    {
        Ins { row }
    }

    /// The number of edges. A walk goes from place 0 to below it.
    pub fn len(&self) -> usize
        ensures { result ≡ length self.now }
    {
        len_of(self.row)
    }

    /// The edge at this place. It counts one step.
    pub fn at<L: Ledger>(&self, place: usize, steps: &mut Steps<L>) -> In
        requires { place < length self.now }
        ensures there { slice_get self.now place ≡ Some (in_entry result) }
        ensures counted { steps.new ≡ steps.old + 1 }
    {
        let (half, value) = entry_at(self.row, place, steps);
        In {
            label: half.label,
            from: half.far,
            value,
        }
    }
}

/// The number of edges of a row that may be there.
fn len_of(row: Option<&EdgeRow>) -> usize
    ensures { result ≡ length (walk_of row.entry) }
{
    match row {
        Some(row) => row.len(),
        None => 0,
    }
}

/// The edge at this place of a row that may be there. It counts one step.
fn entry_at<L: Ledger>(row: Option<&EdgeRow>, place: usize, steps: &mut Steps<L>) -> (HalfEdge, u64)
    requires { place < length (walk_of row) }
    ensures there { slice_get (walk_of row.entry) place ≡ Some result }
    ensures counted { steps.new ≡ steps.old + 1 }
{
    steps.tick();
    match row {
        Some(row) => row.at(place),
        None => unreachable!(),
    }
}
