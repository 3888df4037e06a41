//! One side of a store: for each vertex its edges, by their labels and far ends.

ghost use Rattle.std.specs.Prelude.{◌≡◌, ℕ, ◌+◌, ◌-◌, ◌^◌, ◌<◌, [], length, IfOk, IfSome, OnOk, None, Some};
ghost use Rattle.std.specs.Prelude.{vec_len};
ghost use Rattle.std.specs.List.{IsDistinct};
ghost use Rattle.std.specs.Map.{keys_of};
ghost use Rattle.edge_store.specs.Edges.{row, value_at, same_half};
ghost use Rattle.edge_store.specs.Row.{walk_of};
ghost use Rattle.edge_store.specs.Rows.{rows_of, place_of, owners_in, AreNumbered};
ghost use Rattle.edge_store.specs.Rows.{IsSide, IsBareAt, GivesRow, HasRoom, HasSameRows, KeepsRows};
ghost use Rattle.edge_store.specs.Rows.{TakesAt, Writes};

use crate::edge::HalfEdge;
use crate::owners::Owners;
use crate::row::EdgeRow;
use due_queue::give_back;
use rpq_base::Memory;
use std::alloc::Global;
use std::marker::Model;

/// The rows of one side. Most vertices have no edge in most stores, so a vertex without a row takes
/// four bytes. A vertex gets a row with its first edge. Once its edges are gone, another vertex
/// that needs a row may take it over, so there are not many more rows than vertices with edges, and
/// the rows at the end whose edges are gone go away.
///
/// Contracts see it as one row for each vertex, which is without entries and room where there is
/// none.
#[derive(Drop)]
pub(crate) struct EdgeRows {
    /// For each vertex the number of its row from 1, or 0 where it has none.
    slots: Vec<u32>,
    /// The rows in the order in which they came.
    rows: Vec<EdgeRow>,
    owners: Owners,
}

impl Model for EdgeRows {
    ghost use Rattle.std.specs.Prelude.{List, length};
    ghost use Rattle.edge_store.specs.Row.{RowValue};

    ghost Value = { List RowValue };

    ghost use Rattle.edge_store.specs.Rows.{side, IsSide, AreNumbered};

    ghost view = { λ both. side both.slots.items both.rows.items };

    ghost invariant = { λ both. IsSide both.slots.items (length both.rows.items)
        × AreNumbered both.slots.items (length both.rows.items) };
}

/// The number of places at which a row without edges is looked for before a row more is made. In
/// the long run about one row in so many is without edges.
const TRIES: usize = 4;

/// The place of the row of the vertex, where it has one.
fn locate(slots: &[u32], vertex: u32) -> Option<usize>
    ensures { result ≡ place_of slots.now vertex }
{
    let vertex = vertex as usize;
    if vertex >= slots.len() {
        return None;
    }
    (slots[vertex] as usize).checked_sub(1)
}

/// A slot for the vertex.
fn reach(slots: &mut Vec<u32>, vertex: u32) -> Result<(), Memory>
    requires small { vertex + 1 < 2 ^ 32 }
    requires short { length slots.old.items < 2 ^ 32 }
    ensures same { (each : ℕ) → place_of slots.new.items each ≡ place_of slots.old.items each }
    ensures short { length slots.new.items < 2 ^ 32 }
    ensures ok { OnOk result (vertex < length slots.new.items) }
{
    let vertex = vertex as usize;
    if vertex >= slots.len() {
        slots.resize(vertex + 1, 0)?;
    }
    Ok(())
}

/// The vertex that has the row at this place, where that row has no edges.
fn bare_owner(slots: &[u32], rows: &[EdgeRow], owners: &Owners, at: usize) -> Option<u32>
    requires { IsSide slots.now (length rows.now) }
    ensures { IfSome result (IsBareAt slots.now rows.now at) }
{
    let owner = owners.get(at)?;
    if locate(slots, owner) == Some(at) && rows[at].len() == 0 {
        return Some(owner);
    }
    None
}

/// A row without edges among the next few places: the vertex that has it, and its place. Where no
/// row is without edges, none is looked at.
fn find_bare(slots: &[u32], rows: &[EdgeRow], owners: &mut Owners) -> Option<(u32, usize)>
    requires { IsSide slots.now (length rows.now) }
    ensures { IfSome result (λ found. IsBareAt slots.now rows.now found.1 found.0) }
{
    if !owners.has_bare() {
        return None;
    }
    for _ in 0..TRIES {
        let at = owners.next_place();
        if let Some(owner) = bare_owner(slots, rows, owners, at) {
            return Some((owner, at));
        }
    }
    None
}

/// A new row for a vertex that has none, and its place. There are no more rows than other vertices,
/// so its number is one of 32 bits.
fn add(
    alloc: Global,
    slots: &mut Vec<u32>,
    rows: &mut Vec<EdgeRow>,
    owners: &mut Owners,
    vertex: u32,
) -> Result<usize, Memory>
    requires side { IsSide slots.old.items (length rows.old.items) }
    requires numbered { AreNumbered slots.old.items (length rows.old.items) }
    requires none { place_of slots.old.items vertex ≡ None }
    requires reached { vertex < length slots.old.items }
    ensures side { IsSide slots.new.items (length rows.new.items) }
    ensures numbered { AreNumbered slots.new.items (length rows.new.items) }
    ensures same { KeepsRows slots.old.items rows.old.items slots.new.items rows.new.items }
    ensures ok { IfOk result (λ at. place_of slots.new.items vertex ≡ Some at) }
{
    let at = rows.len();
    owners.add(at, vertex)?;
    rows.push(EdgeRow::new(alloc))?;
    slots[vertex as usize] = (at + 1) as u32;
    Ok(at)
}

/// The vertex that has the last row, where that row has no edges.
fn last_bare(slots: &[u32], rows: &[EdgeRow], owners: &Owners) -> Option<u32>
    requires { IsSide slots.now (length rows.now) }
    ensures { IfSome result (IsBareAt slots.now rows.now (length rows.now - 1)) }
{
    bare_owner(slots, rows, owners, rows.len().checked_sub(1)?)
}

/// Takes the last row, which has no edges, away from the vertex that has it.
fn drop_last(slots: &mut Vec<u32>, rows: &mut Vec<EdgeRow>, vertex: u32)
    requires side { IsSide slots.old.items (length rows.old.items) }
    requires numbered { AreNumbered slots.old.items (length rows.old.items) }
    requires bare { IsBareAt slots.old.items rows.old.items (length rows.old.items - 1) vertex }
    ensures side { IsSide slots.new.items (length rows.new.items) }
    ensures numbered { AreNumbered slots.new.items (length rows.new.items) }
    ensures same { KeepsRows slots.old.items rows.old.items slots.new.items rows.new.items }
    ensures fewer { vec_len rows.new < vec_len rows.old }
{
    slots[vertex as usize] = 0;
    rows.pop();
}

/// Takes the rows away that have no edges and stand behind all that have some. Each was made once,
/// so over a run this costs no more than the making of rows.
fn trim(slots: &mut Vec<u32>, rows: &mut Vec<EdgeRow>, owners: &Owners)
    requires side { IsSide slots.old.items (length rows.old.items) }
    requires numbered { AreNumbered slots.old.items (length rows.old.items) }
    ensures side { IsSide slots.new.items (length rows.new.items) }
    ensures numbered { AreNumbered slots.new.items (length rows.new.items) }
    ensures same { KeepsRows slots.old.items rows.old.items slots.new.items rows.new.items }
{
    while let Some(owner) = last_bare(slots, rows, owners) {
        drop_last(slots, rows, owner);
    }
}

/// Gives the row of one vertex to another.
fn give(slots: &mut Vec<u32>, from: u32, to: u32)
    requires from { from < length slots.old.items }
    requires to { to < length slots.old.items }
    requires none { place_of slots.old.items to ≡ None }
    ensures gives { GivesRow slots.old.items slots.new.items from to }
    ensures len { length slots.new.items ≡ length slots.old.items }
    ensures owners { owners_in slots.new.items ≡ owners_in slots.old.items }
{
    let number = slots[from as usize];
    slots[from as usize] = 0;
    slots[to as usize] = number;
}

/// A row for a vertex that has none, and its place: one without edges that another vertex has, or
/// a new one.
fn place_new(
    alloc: Global,
    slots: &mut Vec<u32>,
    rows: &mut Vec<EdgeRow>,
    owners: &mut Owners,
    vertex: u32,
) -> Result<usize, Memory>
    requires side { IsSide slots.old.items (length rows.old.items) }
    requires numbered { AreNumbered slots.old.items (length rows.old.items) }
    requires small { vertex + 1 < 2 ^ 32 }
    requires none { place_of slots.old.items vertex ≡ None }
    ensures side { IsSide slots.new.items (length rows.new.items) }
    ensures numbered { AreNumbered slots.new.items (length rows.new.items) }
    ensures same { KeepsRows slots.old.items rows.old.items slots.new.items rows.new.items }
    ensures ok { IfOk result (λ at. place_of slots.new.items vertex ≡ Some at) }
{
    reach(slots, vertex)?;
    match find_bare(slots, rows, owners) {
        Some((owner, at)) => {
            give(slots, owner, vertex);
            owners.set(at, vertex);
            Ok(at)
        }
        None => add(alloc, slots, rows, owners, vertex),
    }
}

/// The place of the row of the vertex, which is made where there is none.
fn place_or_new(
    alloc: Global,
    slots: &mut Vec<u32>,
    rows: &mut Vec<EdgeRow>,
    owners: &mut Owners,
    vertex: u32,
) -> Result<usize, Memory>
    requires side { IsSide slots.old.items (length rows.old.items) }
    requires numbered { AreNumbered slots.old.items (length rows.old.items) }
    requires small { vertex + 1 < 2 ^ 32 }
    ensures side { IsSide slots.new.items (length rows.new.items) }
    ensures numbered { AreNumbered slots.new.items (length rows.new.items) }
    ensures same { KeepsRows slots.old.items rows.old.items slots.new.items rows.new.items }
    ensures ok { IfOk result (λ at. place_of slots.new.items vertex ≡ Some at) }
{
    match locate(slots, vertex) {
        Some(at) => Ok(at),
        None => place_new(alloc, slots, rows, owners, vertex),
    }
}

impl EdgeRows {
    /// No rows, which take no memory.
    pub(crate) fn new(alloc: Global) -> EdgeRows
        ensures { result ≡ [] }
    {
        EdgeRows {
            slots: Vec::new(alloc),
            rows: Vec::new(alloc),
            owners: Owners::new(alloc),
        }
    }

    /// The value of an edge of the vertex, by one look-up.
    pub(crate) fn find(&self, vertex: u32, half: HalfEdge) -> Option<u64>
        ensures { result ≡ value_at (rows_of self.now) vertex half }
    {
        match locate(&self.slots, vertex) {
            Some(at) => self.rows[at].get(half),
            None => None,
        }
    }

    /// The row of the vertex, where it has one.
    pub(crate) fn get(&self, vertex: u32) -> Option<&EdgeRow>
        ensures row { walk_of result ≡ row (rows_of self.now) vertex }
        ensures once { IsDistinct same_half (keys_of (walk_of result)) }
    {
        match locate(&self.slots, vertex) {
            Some(at) => {
                let row = &self.rows[at];
                row.once();
                Some(row)
            }
            None => None,
        }
    }

    /// Room for one more edge of the vertex.
    pub(crate) fn make_room(&mut self, alloc: Global, vertex: u32) -> Result<(), Memory>
        requires { vertex + 1 < 2 ^ 32 }
        ensures same { HasSameRows (rows_of self.old) (rows_of self.new) }
        ensures ok { OnOk result (HasRoom self.new vertex) }
    {
        let at = place_or_new(
            alloc,
            &mut self.slots,
            &mut self.rows,
            &mut self.owners,
            vertex,
        )?;
        self.rows[at].reserve(alloc)?;
        Ok(())
    }

    /// Puts the value of an edge of the vertex, which is there or for which there is room.
    pub(crate) fn put(&mut self, vertex: u32, half: HalfEdge, value: u64)
        requires { TakesAt self.old vertex half }
        ensures { Writes (rows_of self.old) (rows_of self.new) vertex half (Some value) }
    {
        match locate(&self.slots, vertex) {
            Some(at) => {
                let row = &mut self.rows[at];
                let before = row.len();
                row.put(half, value);
                self.owners.note_edges(before, row.len());
            }
            None => unreachable!(),
        }
    }

    /// Takes an edge of the vertex out. The last edge of the row comes into its place, and memory
    /// of rows that most vertices need no more is given back.
    pub(crate) fn take(&mut self, vertex: u32, half: HalfEdge) -> Option<u64>
        ensures value { result ≡ value_at (rows_of self.old) vertex half }
        ensures rest { Writes (rows_of self.old) (rows_of self.new) vertex half None }
    {
        let value = self.take_out(vertex, half);
        self.give_back();
        value
    }

    /// Takes an edge of the vertex out, and keeps all rows.
    fn take_out(&mut self, vertex: u32, half: HalfEdge) -> Option<u64>
        ensures value { result ≡ value_at (rows_of self.old) vertex half }
        ensures rest { Writes (rows_of self.old) (rows_of self.new) vertex half None }
    {
        match locate(&self.slots, vertex) {
            Some(at) => {
                let row = &mut self.rows[at];
                let before = row.len();
                let value = row.take(half);
                self.owners.note_edges(before, row.len());
                value
            }
            None => None,
        }
    }

    /// Gives the memory back of rows at the end that have no edges.
    fn give_back(&mut self)
        ensures { HasSameRows (rows_of self.old) (rows_of self.new) }
    {
        trim(&mut self.slots, &mut self.rows, &self.owners);
        give_back(&mut self.rows);
        self.owners.keep(self.rows.len());
    }

    /// Takes all rows away, and keeps the memory of their list.
    pub(crate) fn clear(&mut self)
        ensures { self.new ≡ [] }
    {
        self.slots.clear();
        self.rows.clear();
        self.owners.clear();
    }
}
