//! The pairs of a query, looked up by what is known of their ends.

ghost use Rattle.std.specs.Prelude.{◌≡◌, ◌↔◌, ◌⊎◌, [], true, Contains, IfOk, OnOk};
ghost use Rattle.rpq_base.specs.declared.data.Pair.{Pair};
ghost use Rattle.join_bindings.specs.Pairs.{pairs_of, Sets};
ghost use Rattle.join_bindings.specs.Overlaps.{StandsIn};

use crate::columns::Side;
use crate::rows::VertexRows;
use crate::vertex::Vertex;
use rpq_base::{KeyedHash, Memory, Name, Pair};
use std::alloc::Global;
use std::marker::Model;

/// The two ends of a pair. Contracts see the pair.
#[derive(Drop)]
pub(crate) struct PairEnds<'a> {
    pub(crate) from: &'a Name,
    pub(crate) to: &'a Name,
}

impl<'a> Model for PairEnds<'a> {
    ghost use Rattle.rpq_base.specs.declared.data.Pair.{Pair};

    ghost Value = { Pair };

    ghost view = { λ ends. record { from = ends.from.now; to = ends.to.now } };
}

/// The pairs of a query, by their sources and by their targets. A pair costs two look-ups to find
/// and four to change, whatever the number of pairs.
///
/// Contracts see the list of the pairs.
#[derive(Drop)]
pub(crate) struct PairSet {
    alloc: Global,
    hash: KeyedHash,
    /// The targets of each source.
    sources: VertexRows,
    /// The sources of each target.
    targets: VertexRows,
}

impl Model for PairSet {
    ghost use Rattle.std.specs.Prelude.{List};
    ghost use Rattle.rpq_base.specs.declared.data.Pair.{Pair};
    ghost use Rattle.join_bindings.specs.Pairs.{pairs_of, AreSides};

    ghost Value = { List Pair };

    ghost view = { λ set. pairs_of set.sources };

    ghost invariant = { λ set. AreSides set.sources set.targets };
}

/// Adds the pairs of a source with these targets.
fn add_targets<'a>(
    found: &mut Vec<PairEnds<'a>>,
    from: &'a Name,
    targets: &'a [Vertex],
) -> Result<(), Memory>
    ensures { OnOk result ((pair : Pair) → Contains found.new.items pair
        ↔ (Contains found.old.items pair
        ⊎ ((from.now ≡ pair.from) × Contains targets.now pair.to))) }
{
    for target in targets {
        found.push(PairEnds {
            from,
            to: target.name(),
        })?;
    }
    Ok(())
}

/// Adds the pairs of a target with these sources.
fn add_sources<'a>(
    found: &mut Vec<PairEnds<'a>>,
    to: &'a Name,
    sources: &'a [Vertex],
) -> Result<(), Memory>
    ensures { OnOk result ((pair : Pair) → Contains found.new.items pair
        ↔ (Contains found.old.items pair
        ⊎ ((to.now ≡ pair.to) × Contains sources.now pair.from))) }
{
    for source in sources {
        found.push(PairEnds {
            from: source.name(),
            to,
        })?;
    }
    Ok(())
}

/// All pairs of these rows of targets.
fn all_pairs<'a>(alloc: Global, sources: &'a VertexRows) -> Result<Vec<PairEnds<'a>>, Memory>
    ensures { IfOk result (λ found. (pair : Pair) → Contains found.items pair
        ↔ Contains (pairs_of sources.now) pair) }
{
    let mut found = Vec::new(alloc);
    for place in 0..sources.len() {
        let (from, targets) = sources.at(place);
        add_targets(&mut found, from, targets)?;
    }
    Ok(found)
}

/// Puts the pair into both sides, or takes it out.
fn set_both(
    sources: &mut VertexRows,
    targets: &mut VertexRows,
    pair: &Pair,
    added: bool,
) -> Result<(), Memory>
    ensures sources { OnOk result
        (Sets sources.old sources.new pair.now.from pair.now.to added) }
    ensures targets { OnOk result
        (Sets targets.old targets.new pair.now.to pair.now.from added) }
{
    sources.set(&pair.from, &pair.to, added)?;
    targets.set(&pair.to, &pair.from, added)
}

impl PairSet {
    /// No pairs.
    pub(crate) fn new(alloc: Global, hash: KeyedHash) -> PairSet
        ensures { result ≡ [] }
    {
        PairSet {
            alloc,
            hash,
            sources: VertexRows::new(alloc, hash),
            targets: VertexRows::new(alloc, hash),
        }
    }

    /// Whether the vertex is the source of a pair, by one look-up.
    fn has_source(&self, vertex: &Name) -> bool
        ensures { (result ≡ true) ↔ StandsIn self.now Side.Source vertex.now }
    {
        !self.sources.is_bare(vertex)
    }

    /// Whether the vertex is the target of a pair, by one look-up.
    fn has_target(&self, vertex: &Name) -> bool
        ensures { (result ≡ true) ↔ StandsIn self.now Side.Target vertex.now }
    {
        !self.targets.is_bare(vertex)
    }

    /// Whether the vertex stands at this side of a pair, by one look-up.
    pub(crate) fn has_at(&self, side: Side, vertex: &Name) -> bool
        ensures { (result ≡ true) ↔ StandsIn self.now side vertex.now }
    {
        match side {
            Side::Source => self.has_source(vertex),
            Side::Target => self.has_target(vertex),
        }
    }

    /// How many pairs have this source.
    pub(crate) fn target_count(&self, from: &Name) -> usize {
        self.sources.row(from).len()
    }

    /// How many pairs have this target.
    pub(crate) fn source_count(&self, to: &Name) -> usize {
        self.targets.row(to).len()
    }

    /// Adds the pair with these two ends, if it is there, by two look-ups.
    fn add_one<'a>(
        &self,
        found: &mut Vec<PairEnds<'a>>,
        from: &'a Name,
        to: &'a Name,
    ) -> Result<(), Memory>
        ensures { OnOk result ((pair : Pair) → Contains found.new.items pair
            ↔ (Contains found.old.items pair
            ⊎ (Contains self.now pair × ((from.now ≡ pair.from) × (to.now ≡ pair.to))))) }
    {
        if self.sources.has(from, to) {
            found.push(PairEnds { from, to })?;
        }
        Ok(())
    }

    /// The pair with these two ends, if it is there, by two look-ups.
    pub(crate) fn one<'a>(
        &self,
        alloc: Global,
        from: &'a Name,
        to: &'a Name,
    ) -> Result<Vec<PairEnds<'a>>, Memory>
        ensures { IfOk result (λ found. (pair : Pair) → Contains found.items pair
            ↔ (Contains self.now pair × ((from.now ≡ pair.from) × (to.now ≡ pair.to)))) }
    {
        let mut found = Vec::new(alloc);
        self.add_one(&mut found, from, to)?;
        Ok(found)
    }

    /// The pairs with this source and one of these targets, by two look-ups for each of them.
    pub(crate) fn with_source_among<'a>(
        &self,
        alloc: Global,
        from: &'a Name,
        targets: &'a [Vertex],
    ) -> Result<Vec<PairEnds<'a>>, Memory>
        ensures { IfOk result (λ found. (pair : Pair) → Contains found.items pair
            ↔ (Contains self.now pair
            × ((from.now ≡ pair.from) × Contains targets.now pair.to))) }
    {
        let mut found = Vec::new(alloc);
        for target in targets {
            self.add_one(&mut found, from, target.name())?;
        }
        Ok(found)
    }

    /// The pairs with this target and one of these sources, by two look-ups for each of them.
    pub(crate) fn with_target_among<'a>(
        &self,
        alloc: Global,
        to: &'a Name,
        sources: &'a [Vertex],
    ) -> Result<Vec<PairEnds<'a>>, Memory>
        ensures { IfOk result (λ found. (pair : Pair) → Contains found.items pair
            ↔ (Contains self.now pair
            × ((to.now ≡ pair.to) × Contains sources.now pair.from))) }
    {
        let mut found = Vec::new(alloc);
        for source in sources {
            self.add_one(&mut found, source.name(), to)?;
        }
        Ok(found)
    }

    /// The pairs with this source, by one look-up and as many steps as there are.
    pub(crate) fn with_source<'a>(
        &'a self,
        alloc: Global,
        from: &'a Name,
    ) -> Result<Vec<PairEnds<'a>>, Memory>
        ensures { IfOk result (λ found. (pair : Pair) → Contains found.items pair
            ↔ (Contains self.now pair × (from.now ≡ pair.from))) }
    {
        let mut found = Vec::new(alloc);
        add_targets(&mut found, from, self.sources.row(from))?;
        Ok(found)
    }

    /// The pairs with this target, by one look-up and as many steps as there are.
    pub(crate) fn with_target<'a>(
        &'a self,
        alloc: Global,
        to: &'a Name,
    ) -> Result<Vec<PairEnds<'a>>, Memory>
        ensures { IfOk result (λ found. (pair : Pair) → Contains found.items pair
            ↔ (Contains self.now pair × (to.now ≡ pair.to))) }
    {
        let mut found = Vec::new(alloc);
        add_sources(&mut found, to, self.targets.row(to))?;
        Ok(found)
    }

    /// All pairs.
    pub(crate) fn all<'a>(&'a self, alloc: Global) -> Result<Vec<PairEnds<'a>>, Memory>
        ensures { IfOk result (λ found. (pair : Pair) → Contains found.items pair
            ↔ Contains self.now pair) }
    {
        all_pairs(alloc, &self.sources)
    }

    /// Puts the pair in or takes it out. Where memory runs out no pairs are left.
    pub(crate) fn set(&mut self, pair: &Pair, added: bool) -> Result<(), Memory>
        ensures own { OnOk result ((added ≡ true) ↔ Contains self.new pair.now) }
        ensures others { OnOk result ((other : Pair) → (pair.now ≡ other → ⊥) →
            Contains self.new other ↔ Contains self.old other) }
    {
        let set = set_both(&mut self.sources, &mut self.targets, pair, added);
        if let Err(memory) = set {
            self.sources = VertexRows::new(self.alloc, self.hash);
            self.targets = VertexRows::new(self.alloc, self.hash);
            return Err(memory);
        }
        Ok(())
    }
}
