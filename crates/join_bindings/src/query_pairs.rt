//! The pairs of all queries.

ghost use Rattle.std.specs.Prelude.{◌≡◌, ◌<◌, [], length, All, OnOk, IfOk, slice_index_or};
ghost use Rattle.join_bindings.specs.Changed.{IsPut};
ghost use Rattle.join_bindings.specs.Overlaps.{IsOverlap, Suffice};
ghost use Rattle.join_bindings.specs.Partial.{Fits, atoms_at};

use crate::columns::columns_of;
use crate::overlap::{Overlap, narrowest, overlaps_of, renew_all};
use crate::pairs::{PairEnds, PairSet};
use join_file::{JoinAtom, JoinDef};
use rpq_base::{Event, KeyedHash, Memory, Name};
use std::alloc::Global;
use std::marker::Model;

/// The pairs of each query, and the vertices that columns of them share.
///
/// Contracts see the lists of the pairs, by the numbers of their queries.
#[derive(Drop)]
pub(crate) struct QueryPairs {
    alloc: Global,
    hash: KeyedHash,
    sets: Vec<PairSet>,
    overlaps: Vec<Overlap>,
}

impl Model for QueryPairs {
    ghost use Rattle.std.specs.Prelude.{List, All};
    ghost use Rattle.rpq_base.specs.declared.data.Pair.{Pair};
    ghost use Rattle.join_bindings.specs.Overlaps.{IsOverlap};

    ghost Value = { List (List Pair) };

    ghost view = { λ pairs. pairs.sets.items };

    ghost invariant = { λ pairs. All (IsOverlap pairs.sets.items) pairs.overlaps.items };
}

/// So many sets without pairs.
fn no_pairs(alloc: Global, hash: KeyedHash, queries: u32) -> Result<Vec<PairSet>, Memory>
    ensures many { IfOk result (λ sets. length sets.items ≡ queries) }
    ensures blank { IfOk result (λ sets. All (λ pairs. pairs ≡ []) sets.items) }
{
    let mut sets = Vec::new(alloc);
    for query in 0..queries {
        sets.push(PairSet::new(alloc, hash))?;
    }
    Ok(sets)
}

/// Puts the pair of the event in or takes it out.
fn put(sets: &mut Vec<PairSet>, event: &Event) -> Result<(), Memory>
    requires { event.now.query < length sets.old.items }
    ensures many { length sets.new.items ≡ length sets.old.items }
    ensures put { OnOk result (IsPut sets.old.items sets.new.items event.now) }
{
    sets[event.query as usize].set(&event.pair, event.added)?;
    Ok(())
}

/// Puts the pair of the event in or takes it out, and lets the overlaps follow.
fn put_both(
    sets: &mut Vec<PairSet>,
    overlaps: &mut Vec<Overlap>,
    alloc: Global,
    hash: KeyedHash,
    event: &Event,
) -> Result<(), Memory>
    requires { event.now.query < length sets.old.items }
    ensures many { length sets.new.items ≡ length sets.old.items }
    ensures put { OnOk result (IsPut sets.old.items sets.new.items event.now) }
    ensures overlaps { OnOk result (All (IsOverlap sets.old.items) overlaps.old.items →
        All (IsOverlap sets.new.items) overlaps.new.items) }
{
    put(sets, event)?;
    renew_all(overlaps, alloc, hash, sets, event)?;
    Ok(())
}

impl QueryPairs {
    /// No pairs of so many queries, for the searches of these joins.
    pub(crate) fn new(
        alloc: Global,
        hash: KeyedHash,
        defs: &[JoinDef],
        queries: u32,
    ) -> Result<QueryPairs, Memory>
        ensures many { IfOk result (λ sets. length sets ≡ queries) }
        ensures blank { IfOk result (λ sets. All (λ pairs. pairs ≡ []) sets) }
    {
        let sets = no_pairs(alloc, hash, queries)?;
        let columns = columns_of(alloc, defs)?;
        let overlaps = overlaps_of(alloc, &columns)?;
        Ok(QueryPairs {
            alloc,
            hash,
            sets,
            overlaps,
        })
    }

    /// The pairs of a query.
    fn of(&self, query: u32) -> &PairSet
        requires { query < length self.now }
        ensures { result.now ≡ slice_index_or self.now query [] }
    {
        &self.sets[query as usize]
    }

    /// The pairs of the atom's query with this source, of which those may lack that meet no binding
    /// of these atoms. They are looked for among the targets of the source, or among those that
    /// some of the atoms leave, if these are fewer.
    fn with_source<'a>(
        &'a self,
        alloc: Global,
        atoms: &[&JoinAtom],
        atom: &JoinAtom,
        from: &'a Name,
    ) -> Result<Vec<PairEnds<'a>>, Memory>
        requires { atom.now.query < length self.now }
        ensures { IfOk result (λ found. Suffice self.now (atoms_at atoms.now) atom.now
            (λ pair. from.now ≡ pair.from) found.items) }
    {
        let pairs = self.of(atom.query);
        match narrowest(&self.overlaps, atoms, &atom.to, pairs.target_count(from)) {
            Some(targets) => pairs.with_source_among(alloc, from, targets),
            None => pairs.with_source(alloc, from),
        }
    }

    /// The same of those with this target.
    fn with_target<'a>(
        &'a self,
        alloc: Global,
        atoms: &[&JoinAtom],
        atom: &JoinAtom,
        to: &'a Name,
    ) -> Result<Vec<PairEnds<'a>>, Memory>
        requires { atom.now.query < length self.now }
        ensures { IfOk result (λ found. Suffice self.now (atoms_at atoms.now) atom.now
            (λ pair. to.now ≡ pair.to) found.items) }
    {
        let pairs = self.of(atom.query);
        match narrowest(&self.overlaps, atoms, &atom.from, pairs.source_count(to)) {
            Some(sources) => pairs.with_target_among(alloc, to, sources),
            None => pairs.with_target(alloc, to),
        }
    }

    /// The pairs of the atom's query with these ends, as far as they are known. Those may lack that
    /// meet no binding of these atoms.
    pub(crate) fn fitting<'a>(
        &'a self,
        alloc: Global,
        atoms: &[&JoinAtom],
        atom: &JoinAtom,
        from: Option<&'a Name>,
        to: Option<&'a Name>,
    ) -> Result<Vec<PairEnds<'a>>, Memory>
        requires { atom.now.query < length self.now }
        ensures { IfOk result (λ found. Suffice self.now (atoms_at atoms.now) atom.now
            (λ pair. Fits from.entry pair.from × Fits to.entry pair.to) found.items) }
    {
        let pairs = self.of(atom.query);
        match (from, to) {
            (Some(from), Some(to)) => pairs.one(alloc, from, to),
            (Some(from), None) => self.with_source(alloc, atoms, atom, from),
            (None, Some(to)) => self.with_target(alloc, atoms, atom, to),
            (None, None) => pairs.all(alloc),
        }
    }

    /// Puts the pair of the event in or takes it out. Where memory runs out no vertex is known to
    /// be shared.
    pub(crate) fn take_event(&mut self, event: &Event) -> Result<(), Memory>
        requires { event.now.query < length self.old }
        ensures many { length self.new ≡ length self.old }
        ensures put { OnOk result (IsPut self.old self.new event.now) }
    {
        let done = put_both(
            &mut self.sets,
            &mut self.overlaps,
            self.alloc,
            self.hash,
            event,
        );
        if let Err(memory) = done {
            self.overlaps = Vec::new(self.alloc);
            return Err(memory);
        }
        Ok(())
    }
}
