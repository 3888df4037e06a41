//! The vertices that two columns share.

ghost use Rattle.std.specs.Prelude.{◌≡◌, ◌↔◌, List, true, All, OnOk, IfOk};
ghost use Rattle.rpq_base.specs.declared.data.Pair.{Pair};
ghost use Rattle.join_bindings.specs.Changed.{IsPut};
ghost use Rattle.join_bindings.specs.Overlaps.{StandsAt, StandsInBoth, Renews, Follows, IsOverlap};
ghost use Rattle.join_bindings.specs.Overlaps.{FollowsOne, IsBlank, IsColumnOf, IsNarrow};
ghost use Rattle.join_bindings.specs.Overlaps.{vertex_at};
ghost use Rattle.join_bindings.specs.Overlaps.{IsAtEvent};
ghost use Rattle.join_bindings.specs.Partial.{atoms_at};

use crate::columns::{Column, Columns, Side};
use crate::pairs::PairSet;
use crate::vertex::Vertex;
use crate::vertex_set::VertexSet;
use join_file::{JoinAtom, Term};
use rpq_base::{Event, KeyedHash, Memory, Name, Pair};
use std::alloc::Global;

/// The vertices that stand in both of two columns. Where a variable is in both columns, no binding
/// gives it another vertex.
#[derive(Drop)]
pub(crate) struct Overlap {
    columns: Columns,
    vertices: VertexSet,
}

/// Whether the vertex stands in the column, by one look-up.
fn stands_at(sets: &[PairSet], column: Column, vertex: &Name) -> bool
    ensures { (result ≡ true) ↔ StandsAt sets.now column vertex.now }
{
    match sets.get(column.query as usize) {
        Some(pairs) => pairs.has_at(column.side, vertex),
        None => false,
    }
}

/// Whether the vertex stands in both columns, by two look-ups.
fn stands_in_both(sets: &[PairSet], columns: Columns, vertex: &Name) -> bool
    ensures { (result ≡ true) ↔ StandsInBoth sets.now columns vertex.now }
{
    stands_at(sets, columns.first, vertex) && stands_at(sets, columns.second, vertex)
}

/// Puts the vertex in or takes it out, by whether it stands in both columns.
fn renew_at(
    vertices: &mut VertexSet,
    alloc: Global,
    hash: KeyedHash,
    sets: &[PairSet],
    columns: Columns,
    vertex: &Name,
) -> Result<(), Memory>
    ensures { OnOk result (Renews sets.now columns vertices.old vertices.new
        (λ each. vertex.now ≡ each)) }
{
    if stands_in_both(sets, columns, vertex) {
        vertices.add(alloc, hash, vertex)
    } else {
        vertices.remove(vertex);
        Ok(())
    }
}

/// The vertex of the pair at this side.
fn vertex_at(pair: &Pair, side: Side) -> &Name
    ensures { result.now ≡ vertex_at side pair.now }
{
    match side {
        Side::Source => &pair.from,
        Side::Target => &pair.to,
    }
}

/// Follows an event, by which the sets were changed, if it is of the query of this column.
fn renew_column(
    vertices: &mut VertexSet,
    alloc: Global,
    hash: KeyedHash,
    sets: &[PairSet],
    columns: Columns,
    column: Column,
    event: &Event,
) -> Result<(), Memory>
    ensures { OnOk result (Renews sets.now columns vertices.old vertices.new
        (IsAtEvent column event.now)) }
{
    if column.query == event.query {
        let vertex = vertex_at(&event.pair, column.side);
        renew_at(vertices, alloc, hash, sets, columns, vertex)
    } else {
        Ok(())
    }
}

/// Follows an event, by which the sets were changed.
fn renew_by(
    vertices: &mut VertexSet,
    alloc: Global,
    hash: KeyedHash,
    sets: &[PairSet],
    columns: Columns,
    event: &Event,
) -> Result<(), Memory>
    ensures { OnOk result
        (Follows sets.now event.now columns vertices.old vertices.new) }
{
    renew_column(vertices, alloc, hash, sets, columns, columns.first, event)?;
    renew_column(vertices, alloc, hash, sets, columns, columns.second, event)
}

impl Overlap {
    /// Whether the variable is in both columns, and they share fewer vertices than so many.
    fn is_narrower(&self, atoms: &[&JoinAtom], term: &Term, count: usize) -> bool
        ensures first { result ≡ true →
            IsColumnOf (atoms_at atoms.now) term.now self.now.columns.first }
        ensures second { result ≡ true →
            IsColumnOf (atoms_at atoms.now) term.now self.now.columns.second }
    {
        self.vertices.list().len() < count && self.columns.are_of(atoms, term)
    }

    /// Follows an event, by which the sets were changed.
    fn renew(
        &mut self,
        alloc: Global,
        hash: KeyedHash,
        sets: &[PairSet],
        event: &Event,
    ) -> Result<(), Memory>
        ensures { OnOk result (FollowsOne sets.now event.now self.old self.new) }
    {
        renew_by(&mut self.vertices, alloc, hash, sets, self.columns, event)
    }
}

/// Lets the overlaps follow an event, by which the sets were changed.
pub(crate) fn renew_all(
    overlaps: &mut Vec<Overlap>,
    alloc: Global,
    hash: KeyedHash,
    sets: &[PairSet],
    event: &Event,
) -> Result<(), Memory>
    ensures { OnOk result ((before : List (List Pair)) → IsPut before sets.now event.now →
        All (IsOverlap before) overlaps.old.items → All (IsOverlap sets.now) overlaps.new.items) }
{
    for place in 0..overlaps.len() {
        overlaps[place].renew(alloc, hash, sets, event)?;
    }
    Ok(())
}

/// Overlaps of these columns, which have no vertices yet.
pub(crate) fn overlaps_of(alloc: Global, list: &[Columns]) -> Result<Vec<Overlap>, Memory>
    ensures { IfOk result (λ overlaps. All IsBlank overlaps.items) }
{
    let mut overlaps = Vec::new(alloc);
    for columns in list {
        overlaps.push(Overlap {
            columns: *columns,
            vertices: VertexSet::new(alloc),
        })?;
    }
    Ok(overlaps)
}

/// How many these are, or so many where none are given.
fn count_of(narrow: Option<&[Vertex]>, count: usize) -> usize {
    match narrow {
        Some(few) => few.len(),
        None => count,
    }
}

/// The vertices of the overlap, if they are narrower.
fn narrower<'a>(
    narrow: Option<&'a [Vertex]>,
    overlap: &'a Overlap,
    atoms: &[&JoinAtom],
    term: &Term,
    count: usize,
) -> Option<&'a [Vertex]>
    ensures { (sets : List (List Pair)) → IsOverlap sets overlap.now →
        IsNarrow sets (atoms_at atoms.now) term.now narrow.entry →
        IsNarrow sets (atoms_at atoms.now) term.now result }
{
    if overlap.is_narrower(atoms, term, count_of(narrow, count)) {
        Some(overlap.vertices.list())
    } else {
        narrow
    }
}

/// The fewest vertices among which each is that a binding gives this variable, if they are fewer
/// than so many. These are the atoms of its join.
pub(crate) fn narrowest<'a>(
    overlaps: &'a [Overlap],
    atoms: &[&JoinAtom],
    term: &Term,
    count: usize,
) -> Option<&'a [Vertex]>
    ensures { (sets : List (List Pair)) → All (IsOverlap sets) overlaps.now →
        IsNarrow sets (atoms_at atoms.now) term.now result }
{
    let mut narrow = None;
    for overlap in overlaps {
        narrow = narrower(narrow, overlap, atoms, term, count);
    }
    narrow
}
