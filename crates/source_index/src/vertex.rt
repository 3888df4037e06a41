//! The roots at the places of one vertex.

ghost use Rattle.std.specs.Prelude.{◌≡◌, ◌≢◌, ◌↔◌, ◌<◌, ◌≤◌, ℕ, [], length, insert, remove, nat_eq, slice_get, Some, Contains, IsTrue, IfOk, IfErr, OnOk, OnErr};
ghost use Rattle.std.specs.List.{IsDistinct};
ghost use Rattle.source_index.specs.VertexStorage.{Inserts, are_several, many_of, states_of};
ghost use Rattle.source_index.specs.Roots.{AddsRoot, DropsRoot};
ghost use Rattle.source_index.specs.Vertex.{AddsAt, DropsAt, IsFree, IsRising, Rewrites, roots_in};

use crate::roots::Roots;
use rpq_base::Memory;
use small_map::{give_back, make_room};
use std::alloc::Global;
use std::marker::Model;
use std::mem::replace;
use std::slice::from_ref;

/// The states of a vertex in rising order, and the roots at each of them in the same order.
#[derive(Drop)]
enum VertexStorage {
    One(u32, Roots),
    Several(Vec<u32>, Vec<Roots>),
}

/// For each state of a vertex the set of its roots. A vertex with one state, as most are, takes no
/// memory of its own, and a state is found by a binary search.
#[derive(Drop)]
pub(crate) struct VertexRoots {
    alloc: Global,
    kept: VertexStorage,
}

impl Model for VertexRoots {
    ghost use Rattle.std.specs.List.{zip};
    ghost use Rattle.source_index.specs.VertexStorage.{many_of, states_of};
    ghost use Rattle.source_index.specs.Vertex.{RootsByState, IsInStep};

    ghost Value = { RootsByState };

    ghost view = { λ vertex. zip (states_of vertex.kept) (many_of vertex.kept) };

    ghost invariant = { λ vertex. IsInStep (states_of vertex.kept) (many_of vertex.kept) };
}

/// The place of a state among rising ones, or the place where it belongs.
fn find(states: &[u32], state: u32) -> Result<usize, usize>
    requires { IsRising states.now }
    ensures found { IfOk result (λ place. slice_get states.now place ≡ Some state) }
    ensures free { IfErr result (IsFree states.now state) }
{
    states.binary_search(&state)
}

/// The states.
fn states_of(kept: &VertexStorage) -> &[u32]
    ensures { result.now ≡ states_of kept.now }
{
    match kept {
        VertexStorage::One(state, _) => from_ref(state),
        VertexStorage::Several(states, _) => states.as_slice(),
    }
}

/// No state. Takes no memory.
fn nothing(alloc: Global) -> VertexStorage
    ensures states { states_of result ≡ [] }
    ensures many { many_of result ≡ [] }
{
    VertexStorage::Several(Vec::new(alloc), Vec::new(alloc))
}

/// The roots at this place.
fn roots_at(kept: &VertexStorage, place: usize) -> &Roots
    requires { place < length (many_of kept.now) }
    ensures { slice_get (many_of kept.now) place ≡ Some result.now }
{
    match kept {
        VertexStorage::One(_, roots) => roots,
        VertexStorage::Several(_, many) => &many[place],
    }
}

/// Adds the root to those at a place. The only error is [`Memory`], after which the same roots are
/// there.
fn add_at(kept: &mut VertexStorage, place: usize, root: u32) -> Result<(), Memory>
    requires { place < length (many_of kept.old) }
    ensures states { states_of kept.new ≡ states_of kept.old }
    ensures added { OnOk result (Rewrites (many_of kept.old) (many_of kept.new) place
        (λ old new. AddsRoot old new root)) }
    ensures unchanged { OnErr result (many_of kept.new ≡ many_of kept.old) }
{
    match kept {
        VertexStorage::One(_, roots) => roots.add(root),
        VertexStorage::Several(_, many) => many[place].add(root),
    }
}

/// Takes the root out of those at a place.
fn take_at(kept: &mut VertexStorage, place: usize, root: u32)
    requires { place < length (many_of kept.old) }
    ensures states { states_of kept.new ≡ states_of kept.old }
    ensures dropped { Rewrites (many_of kept.old) (many_of kept.new) place
        (λ old new. DropsRoot old new root) }
{
    match kept {
        VertexStorage::One(_, roots) => roots.remove(root),
        VertexStorage::Several(_, many) => many[place].remove(root),
    }
}

/// Keeps what there is as one of several. The only error is [`Memory`].
fn spread(kept: &mut VertexStorage, alloc: Global) -> Result<(), Memory>
    ensures states { states_of kept.new ≡ states_of kept.old }
    ensures many { many_of kept.new ≡ many_of kept.old }
    ensures several { OnOk result (IsTrue (are_several kept.new)) }
{
    if let VertexStorage::Several(_, _) = kept {
        return Ok(());
    }
    let mut states = Vec::with_capacity(alloc, 2)?;
    let mut many = Vec::with_capacity(alloc, 2)?;
    match replace(kept, nothing(alloc)) {
        VertexStorage::One(state, roots) => {
            states.push_reserved(state);
            many.push_reserved(roots);
            *kept = VertexStorage::Several(states, many);
        }
        several => *kept = several,
    }
    Ok(())
}

/// Puts a state with its roots between the others. The only error is [`Memory`], after which
/// nothing has changed.
fn put(
    states: &mut Vec<u32>,
    many: &mut Vec<Roots>,
    place: usize,
    state: u32,
    roots: Roots,
) -> Result<(), Memory>
    requires within { place ≤ length states.old.items }
    requires paired { length many.old.items ≡ length states.old.items }
    ensures states { OnOk result (states.new.items ≡ insert states.old.items place state) }
    ensures many { OnOk result (many.new.items ≡ insert many.old.items place roots) }
    ensures unchanged { OnErr result ((states.new.items ≡ states.old.items)
        × (many.new.items ≡ many.old.items)) }
{
    make_room(states)?;
    make_room(many)?;
    // There is room, so neither of these fails.
    states.insert(place, state)?;
    many.insert(place, roots)?;
    Ok(())
}

/// Puts a state with a root where it belongs. The only error is [`Memory`], after which nothing has
/// changed.
fn insert_at(
    kept: &mut VertexStorage,
    alloc: Global,
    place: usize,
    state: u32,
    root: u32,
) -> Result<(), Memory>
    requires within { place ≤ length (states_of kept.old) }
    requires paired { length (many_of kept.old) ≡ length (states_of kept.old) }
    ensures inserted { OnOk result (Inserts kept.old kept.new place state root) }
    ensures states { OnErr result (states_of kept.new ≡ states_of kept.old) }
    ensures many { OnErr result (many_of kept.new ≡ many_of kept.old) }
{
    let mut roots = Roots::new(alloc);
    roots.add(root)?;
    if states_of(kept).is_empty() {
        *kept = VertexStorage::One(state, roots);
        return Ok(());
    }
    spread(kept, alloc)?;
    if let VertexStorage::Several(states, many) = kept {
        put(states, many, place, state, roots)?;
    }
    Ok(())
}

/// Takes a state and its roots out, and gives memory back where most of it isn't used any more.
fn remove_at(kept: &mut VertexStorage, alloc: Global, place: usize)
    requires within { place < length (states_of kept.old) }
    requires paired { length (many_of kept.old) ≡ length (states_of kept.old) }
    ensures states { states_of kept.new ≡ remove (states_of kept.old) place }
    ensures many { many_of kept.new ≡ remove (many_of kept.old) place }
{
    match kept {
        VertexStorage::One(_, _) => *kept = nothing(alloc),
        VertexStorage::Several(states, many) => {
            states.remove(place);
            many.remove(place);
            give_back(states);
            give_back(many);
        }
    }
}

impl VertexRoots {
    /// No root at any state. Takes no memory.
    pub(crate) fn new(alloc: Global) -> VertexRoots
        ensures { result ≡ [] }
    {
        VertexRoots {
            alloc,
            kept: nothing(alloc),
        }
    }

    /// The states with some root, in rising order.
    pub(crate) fn states(&self) -> &[u32]
        ensures exact { (state : ℕ) → Contains result.now state ↔ (roots_in self.now state ≢ []) }
        ensures rising { IsRising result.now }
    {
        states_of(&self.kept)
    }

    /// Whether no state has a root.
    pub(crate) fn is_empty(&self) -> bool
        ensures { IsTrue result → self.now ≡ [] }
    {
        states_of(&self.kept).is_empty()
    }

    /// The roots at the state, each once.
    pub(crate) fn at(&self, state: u32) -> &[u32]
        ensures roots { result.now ≡ roots_in self.now state }
        ensures once { IsDistinct nat_eq result.now }
    {
        match find(states_of(&self.kept), state) {
            Ok(place) => roots_at(&self.kept, place).as_slice(),
            Err(_) => &[],
        }
    }

    /// Holds the root at the state. The only error is [`Memory`], after which the same roots are
    /// held as before.
    pub(crate) fn add(&mut self, state: u32, root: u32) -> Result<(), Memory>
        ensures added { OnOk result (AddsAt self.old self.new state root) }
        ensures unchanged { OnErr result (self.new ≡ self.old) }
    {
        match find(states_of(&self.kept), state) {
            Ok(place) => add_at(&mut self.kept, place, root),
            Err(place) => insert_at(&mut self.kept, self.alloc, place, state, root),
        }
    }

    /// Holds the root at the state no more. A state without roots is forgotten.
    pub(crate) fn remove(&mut self, state: u32, root: u32)
        ensures { DropsAt self.old self.new state root }
    {
        if let Ok(place) = find(states_of(&self.kept), state) {
            take_at(&mut self.kept, place, root);
            if roots_at(&self.kept, place).is_empty() {
                remove_at(&mut self.kept, self.alloc, place);
            }
        }
    }
}
