//! The table of sources.

ghost use Rattle.std.specs.Prelude.{◌≡◌, ◌+◌, ◌^◌, ◌<◌, ◌∷◌, ◌++◌, [], option_map, OnOk, OnErr, None};
ghost use Rattle.std.specs.Ordering.{nat_cmp};
ghost use Rattle.std.specs.List.Sorted.{IsStrictlySortedBy};
ghost use Rattle.source_tree.specs.Ends.{SourceValue};
ghost use Rattle.source_table.specs.Sources.{AreApart, AreReady, GivesSource, HaveTaken, roots_of, source_in};

use crate::part::{change_all, check, choose, chunk_size};
use crate::places::SourcePlaces;
use due_queue::give_back;
use rpq_base::{Memory, Workers};
use run_context::{Context, Gate};
use source_tree::{Change, ProductGraph, SourceTree};
use std::alloc::Global;
use std::marker::Model;
use std::thread::Threads;
use tree_insert::Search;

/// The trees of some sources, each found by its root.
///
/// Contracts see the list of the sources, in which each root stands once. No root is the greatest
/// number of 32 bits, which leaves each source a number for its place.
#[derive(Drop)]
pub struct SourceTable {
    sources: Vec<SourceTree>,
    /// The place of each source, by its root.
    places: SourcePlaces,
    /// The places of the sources that take a change, in the memory of the changes before.
    chosen: Vec<usize>,
    /// The room of the searches of one worker.
    search: Search,
}

impl Model for SourceTable {
    ghost use Rattle.std.specs.Prelude.{◌<◌, ◌^◌, List, length};
    ghost use Rattle.source_tree.specs.Ends.{SourceValue};
    ghost use Rattle.source_table.specs.Places.{ArePlaced};
    ghost use Rattle.source_table.specs.Sources.{roots_of};

    ghost Value = { List SourceValue };

    ghost view = { λ table. table.sources.items };

    ghost invariant = { λ table.
        ArePlaced (roots_of table.sources.items) table.places.marks.items
        × (length table.places.marks.items < 2 ^ 32) };
}

impl SourceTable {
    /// No sources. Takes no memory.
    pub fn new(alloc: Global) -> SourceTable
        ensures { result ≡ [] }
    {
        SourceTable {
            sources: Vec::new(alloc),
            places: SourcePlaces::new(alloc),
            chosen: Vec::new(alloc),
            search: Search::new(alloc),
        }
    }

    /// The source with this root, by one look-up.
    pub fn get(&self, root: u32) -> Option<&SourceTree>
        ensures source { option_map (λ source. source.now) result ≡ source_in self.now root }
        ensures apart { AreApart self.now }
    {
        match self.places.get(root) {
            Some(place) => Some(&self.sources[place]),
            None => None,
        }
    }

    /// Puts a source in whose root has none yet. The only error is [`Memory`], after which the
    /// table is as before.
    pub fn add(&mut self, source: SourceTree) -> Result<(), Memory>
        requires new { source_in self.old source.tree.root ≡ None }
        requires small { source.tree.root + 1 < 2 ^ 32 }
        ensures added { OnOk result (self.new ≡ self.old ++ source ∷ []) }
        ensures unchanged { OnErr result (self.new ≡ self.old) }
    {
        self.sources.reserve(1)?;
        self.places.add(source.root(), self.sources.len())?;
        self.sources.push_reserved(source);
        Ok(())
    }

    /// Takes the source with this root out, where there is one. Memory of which three quarters
    /// aren't used any more is given back.
    pub fn remove(&mut self, root: u32)
        ensures gone { GivesSource self.old self.new root None }
        ensures apart { AreApart self.new }
    {
        self.take_out(root);
        give_back(&mut self.sources);
    }

    /// Takes the source with this root out, and keeps all memory.
    fn take_out(&mut self, root: u32)
        ensures gone { GivesSource self.old self.new root None }
        ensures apart { AreApart self.new }
    {
        if let Some(place) = self.places.take(root) {
            let index = place as usize;
            self.sources.swap_remove(index);
            if index < self.sources.len() {
                self.places.move_to(self.sources[index].root(), place);
            }
        }
    }

    /// Takes all sources out.
    pub fn clear(&mut self)
        ensures { self.new ≡ [] }
    {
        self.sources.clear();
        self.places.clear();
    }

    /// Makes the sources of these roots take a change of the store, which the store has taken
    /// before, by so many workers. The sources are cut into at most as many chunks of the same size
    /// as there are workers; each worker passes the gate and then goes through the chosen sources
    /// of its chunk. Where there is no source, no worker passes.
    ///
    /// The only error is [`Memory`], after which the same roots have sources, which are of no use.
    pub fn change_each<R: Threads + Sync, G: Gate>(
        &mut self,
        context: &Context<'_, R, G>,
        workers: Workers,
        roots: &[u32],
        product: &ProductGraph<'_>,
        change: Change,
    ) -> Result<(), Memory>
        requires sorted { IsStrictlySortedBy nat_cmp roots.now }
        requires ready { AreReady change product.now roots.now self.old }
        ensures taken { OnOk result (HaveTaken change product.now roots.now self.old self.new) }
        ensures roots { roots_of self.new ≡ roots_of self.old }
    {
        if self.sources.is_empty() {
            return Ok(());
        }
        choose(&self.places, roots, &mut self.chosen)?;
        let size = chunk_size(self.sources.len(), workers);
        change_all(
            context,
            &mut self.search,
            size,
            &self.chosen,
            &mut self.sources,
            product,
            change,
        );
        check(&self.sources, &self.chosen)
    }
}
