//! A store of edges with values.

ghost use Rattle.std.specs.Prelude.{◌≡◌, ◌+◌, ◌<◌, length, IfOk, OnErr, OnOk, None, Some, slice_get};
ghost use Rattle.edge_store.specs.Edges.{IsEmpty, HasSameValues, Updates, Expires, GivesOuts, GivesIns};
ghost use Rattle.edge_store.specs.Edges.{value_of, raised, above, outs_of, ins_of, out_entry, in_entry};
ghost use Rattle.edge_store.specs.Edges.{out_half, in_half, JoinsSmall};
ghost use Rattle.edge_store.specs.Rows.{rows_of, sides, Agree, HasSameRows, TakesAt};

use crate::edge::{EdgeId, In, Out, Raised};
use crate::rows::EdgeRows;
use crate::steps::Steps;
use crate::walk::{Ins, Outs};
use due_queue::DueQueue;
use rpq_base::Memory;
use std::alloc::Global;
use std::marker::Model;
use std::sync::ledger::Ledger;

/// A finite map from edges to values, with the edges of each vertex at hand.
///
/// Contracts see it as `Edges` of `specs/`. It takes four bytes on each side for each number of a
/// vertex up to the greatest that it was given, so these numbers should be dense. None of them is
/// the greatest of 32 bits, which leaves each vertex a number for its row.
pub struct EdgeStore {
    alloc: Global,
    /// For each vertex the edges that leave it.
    outs: EdgeRows,
    /// For each vertex the edges that end at it.
    ins: EdgeRows,
    /// Each edge with its value, and beside them values that an edge had before.
    dues: DueQueue<EdgeId>,
}

impl Drop for EdgeStore {
    fn drop(self) {
        let EdgeStore {
            alloc: _alloc,
            outs: _outs,
            ins: _ins,
            dues: _dues,
        } = self;
    }
}

impl Model for EdgeStore {
    ghost use Rattle.edge_store.specs.Edges.{Edges};

    ghost Value = { Edges };

    ghost use Rattle.edge_store.specs.Rows.{rows_of};
    ghost use Rattle.edge_store.specs.Dues.{IsStore};

    ghost view = { λ store. record {
      outs = rows_of store.outs;
      ins = rows_of store.ins;
    } };

    ghost invariant = { λ store.
        IsStore (rows_of store.outs) (rows_of store.ins) store.dues.items };
}

impl EdgeStore {
    /// A store without edges. It takes memory with the first edge.
    pub fn new(alloc: Global) -> Result<EdgeStore, Memory>
        ensures { IfOk result IsEmpty }
    {
        Ok(EdgeStore {
            alloc,
            outs: EdgeRows::new(alloc),
            ins: EdgeRows::new(alloc),
            dues: DueQueue::new(alloc),
        })
    }

    /// The value of the edge, or none where the store hasn't got it, by one look-up.
    pub fn value(&self, edge: EdgeId) -> Option<u64>
        ensures { result ≡ value_of self.now edge }
    {
        self.outs.find(edge.from, edge.out_half())
    }

    /// Raises the value of the edge to this one, where it isn't greater already; an edge that the
    /// store hasn't got comes in. The only error is [`Memory`], after which all values are as
    /// before.
    pub fn raise(&mut self, edge: EdgeId, value: u64) -> Result<Raised, Memory>
        requires { JoinsSmall edge }
        ensures before { IfOk result (λ change. change.before ≡ value_of self.old edge) }
        ensures after { IfOk result (λ change.
            change.after ≡ raised (value_of self.old edge) value) }
        ensures updates { IfOk result (λ change.
            Updates self.old self.new edge (Some change.after)) }
        ensures unchanged { OnErr result (HasSameValues self.old self.new) }
    {
        let before = self.value(edge);
        match before {
            Some(kept) if kept >= value => Ok(Raised {
                before,
                after: kept,
            }),
            _ => {
                self.put(edge, before, value)?;
                Ok(Raised {
                    before,
                    after: value,
                })
            }
        }
    }

    /// Takes all edges out. This takes no memory.
    pub fn clear(&mut self)
        ensures { IsEmpty self.new }
    {
        self.outs.clear();
        self.ins.clear();
        self.dues.clear();
    }

    /// Gives the edge this value, where it had that one before.
    fn put(&mut self, edge: EdgeId, before: Option<u64>, value: u64) -> Result<(), Memory>
        requires before { before ≡ value_of self.old edge }
        requires small { JoinsSmall edge }
        ensures updates { OnOk result (Updates self.old self.new edge (Some value)) }
        ensures unchanged { OnErr result (HasSameValues self.old self.new) }
    {
        make_room(self.alloc, &mut self.outs, &mut self.ins, edge, before)?;
        self.dues.note(edge, value)?;
        self.outs.put(edge.from, edge.out_half(), value);
        self.ins.put(edge.to, edge.in_half(), value);
        Ok(())
    }

    /// Takes the edge out, and answers the value that it had.
    pub fn remove(&mut self, edge: EdgeId) -> Option<u64>
        ensures value { result ≡ value_of self.old edge }
        ensures updates { Updates self.old self.new edge None }
    {
        self.ins.take(edge.to, edge.in_half());
        self.outs.take(edge.from, edge.out_half())
    }

    /// Takes exactly the edges out whose value is at most `now`. Where none is, this is one
    /// comparison, and else a step in a heap for each of them and for each raise that a later one
    /// outdid.
    pub fn expire(&mut self, now: u64)
        ensures { Expires self.old self.new now }
    {
        while let Some(next) = self.dues.next_due(now) {
            drop_due(&mut self.outs, &mut self.ins, next.item, now);
        }
        self.dues.give_back();
    }

    /// The edges that leave the vertex, by one look-up for a whole walk.
    pub fn outs(&self, v: u32) -> Outs<'_>
        ensures edges { result ≡ outs_of self.now v }
        ensures walk { GivesOuts self.now v }
    {
        Outs::new(self.outs.get(v))
    }

    /// The edges that end at the vertex, by one look-up for a whole walk.
    pub fn ins(&self, v: u32) -> Ins<'_>
        ensures edges { result ≡ ins_of self.now v }
        ensures walk { GivesIns self.now v }
    {
        Ins::new(self.ins.get(v))
    }

    /// The number of edges that leave the vertex. A walk over them goes from place 0 to below it.
    pub fn out_len(&self, v: u32) -> usize
        ensures count { result ≡ length (outs_of self.now v) }
        ensures walk { GivesOuts self.now v }
    {
        self.outs(v).len()
    }

    /// The number of edges that end at the vertex. A walk over them goes from place 0 to below it.
    pub fn in_len(&self, v: u32) -> usize
        ensures count { result ≡ length (ins_of self.now v) }
        ensures walk { GivesIns self.now v }
    {
        self.ins(v).len()
    }

    /// The edge at this place among those that leave the vertex. It counts one step, and looks the
    /// vertex up; a walk goes faster by [`EdgeStore::outs`].
    pub fn out_at<L: Ledger>(&self, v: u32, k: usize, steps: &mut Steps<L>) -> Out
        requires { k < length (outs_of self.now v) }
        ensures there { slice_get (outs_of self.now v) k ≡ Some (out_entry result) }
        ensures counted { steps.new ≡ steps.old + 1 }
    {
        self.outs(v).at(k, steps)
    }

    /// The edge at this place among those that end at the vertex. It counts one step, and looks the
    /// vertex up; a walk goes faster by [`EdgeStore::ins`].
    pub fn in_at<L: Ledger>(&self, v: u32, k: usize, steps: &mut Steps<L>) -> In
        requires { k < length (ins_of self.now v) }
        ensures there { slice_get (ins_of self.now v) k ≡ Some (in_entry result) }
        ensures counted { steps.new ≡ steps.old + 1 }
    {
        self.ins(v).at(k, steps)
    }
}

/// Room on both sides for an edge that had this value before: a known edge needs none.
fn make_room(
    alloc: Global,
    outs: &mut EdgeRows,
    ins: &mut EdgeRows,
    edge: EdgeId,
    before: Option<u64>,
) -> Result<(), Memory>
    requires agree { Agree (rows_of outs.old) (rows_of ins.old) }
    requires before { before ≡ value_of (sides (rows_of outs.old) (rows_of ins.old)) edge }
    requires small { JoinsSmall edge }
    ensures same_outs { HasSameRows (rows_of outs.old) (rows_of outs.new) }
    ensures same_ins { HasSameRows (rows_of ins.old) (rows_of ins.new) }
    ensures out_room { OnOk result (TakesAt outs.new edge.from (out_half edge)) }
    ensures in_room { OnOk result (TakesAt ins.new edge.to (in_half edge)) }
{
    if before.is_some() {
        return Ok(());
    }
    outs.make_room(alloc, edge.from)?;
    ins.make_room(alloc, edge.to)
}

/// Takes the edge out of both sides where its value is at most `now`.
fn drop_due(outs: &mut EdgeRows, ins: &mut EdgeRows, edge: EdgeId, now: u64)
    requires { Agree (rows_of outs.old) (rows_of ins.old) }
    ensures agree { Agree (rows_of outs.new) (rows_of ins.new) }
    ensures updates { Updates
        (sides (rows_of outs.old) (rows_of ins.old))
        (sides (rows_of outs.new) (rows_of ins.new))
        edge (above now (value_of (sides (rows_of outs.old) (rows_of ins.old)) edge)) }
{
    match outs.find(edge.from, edge.out_half()) {
        Some(value) if value <= now => {
            ins.take(edge.to, edge.in_half());
            outs.take(edge.from, edge.out_half());
        }
        _ => {}
    }
}
