//! The roots at one place.

ghost use Rattle.std.specs.Prelude.{◌≡◌, ◌↔◌, ◌<◌, [], nat_eq, slice_get, Some, Contains, IsTrue, IfSome, IfNone, IfOk, OnOk, OnErr};
ghost use Rattle.std.specs.List.{IsDistinct};
ghost use Rattle.indexmap.specs.IndexSet.{IsFromIterResult};
ghost use Rattle.source_index.specs.Roots.{AddsRoot, DropsRoot};

use indexmap::IndexSet;
use rpq_base::Memory;
use smallvec::SmallVec;
use std::alloc::{AllocError, Global};
use std::marker::Model;

/// The most roots that are found by going through them, which is faster than a hash.
const MOST_FEW: usize = 16;

/// Many roots that are no more than this become few again. It lies well below [`MOST_FEW`], so a
/// root that comes and goes doesn't move the others each time.
const LEAST_MANY: usize = 4;

/// The roots at a place, as few that are gone through, or as many that are found by a hash.
#[derive(Drop)]
enum RootStorage {
    Few(SmallVec<u32, 4>),
    Many(Box<IndexSet<u32>>),
}

/// The roots at a place, each once. The first four take no memory of their own.
#[derive(Drop)]
pub(crate) struct Roots {
    kept: RootStorage,
}

impl Model for Roots {
    ghost use Rattle.std.specs.Prelude.{ℕ, List, nat_eq};
    ghost use Rattle.std.specs.List.{IsDistinct};
    ghost use Rattle.source_index.specs.RootStorage.{roots_of};

    ghost Value = { List ℕ };

    ghost view = { λ roots. roots_of roots.kept };

    ghost invariant = { λ roots. IsDistinct nat_eq (roots_of roots.kept) };
}

/// The place of a root among few.
fn place(few: &[u32], root: u32) -> Option<usize>
    ensures place { IfSome result (λ at. slice_get few.now at ≡ Some root) }
    ensures absent { IfNone result (Contains few.now root → ⊥) }
{
    few.iter().position(|each| root == *each)
}

/// Adds the root to few.
fn add_to_few(few: &mut SmallVec<u32, 4>, root: u32) -> Result<(), Memory>
    requires { IsDistinct nat_eq few.old.items }
    ensures once { IsDistinct nat_eq few.new.items }
    ensures added { OnOk result (AddsRoot few.old.items few.new.items root) }
    ensures unchanged { OnErr result (few.new.items ≡ few.old.items) }
{
    match place(few.as_slice(), root) {
        Some(_) => Ok(()),
        None => {
            few.push(root)?;
            Ok(())
        }
    }
}

/// Takes the root out of few.
fn take_from_few(few: &mut SmallVec<u32, 4>, root: u32)
    requires { IsDistinct nat_eq few.old.items }
    ensures once { IsDistinct nat_eq few.new.items }
    ensures dropped { DropsRoot few.old.items few.new.items root }
{
    if let Some(at) = place(few.as_slice(), root) {
        few.swap_remove(at);
    }
}

/// The set of the roots of a list.
fn set_of(alloc: Global, few: &[u32]) -> Result<IndexSet<u32>, AllocError>
    ensures { IfOk result (IsFromIterResult nat_eq few.now) }
{
    few.iter().copied().collect(alloc)
}

/// Few roots and another one, as many.
fn many_with(few: &SmallVec<u32, 4>, root: u32) -> Result<Roots, Memory>
    ensures { IfOk result (λ roots. AddsRoot few.now.items roots root) }
{
    let alloc = *few.allocator();
    let mut many = set_of(alloc, few.as_slice())?;
    many.insert(root)?;
    Ok(Roots {
        kept: RootStorage::Many(Box::new(alloc, many)?),
    })
}

/// The roots of a set, as few.
fn few_of(many: &IndexSet<u32>) -> Result<Roots, AllocError>
    ensures { IfOk result (λ roots. roots ≡ many.now.keys) }
{
    let few = SmallVec::from_slice(*many.allocator(), many.as_slice())?;
    Ok(Roots {
        kept: RootStorage::Few(few),
    })
}

impl Roots {
    /// No root. Takes no memory.
    pub(crate) fn new(alloc: Global) -> Roots
        ensures { result ≡ [] }
    {
        Roots {
            kept: RootStorage::Few(SmallVec::new(alloc)),
        }
    }

    /// The roots, each once.
    pub(crate) fn as_slice(&self) -> &[u32]
        ensures roots { result.now ≡ self.now }
        ensures once { IsDistinct nat_eq result.now }
    {
        match &self.kept {
            RootStorage::Few(few) => few.as_slice(),
            RootStorage::Many(many) => many.as_slice(),
        }
    }

    /// Whether there is no root.
    pub(crate) fn is_empty(&self) -> bool
        ensures { IsTrue result ↔ (self.now ≡ []) }
    {
        self.as_slice().is_empty()
    }

    /// Adds the root. The only error is [`Memory`], after which the same roots are there.
    pub(crate) fn add(&mut self, root: u32) -> Result<(), Memory>
        ensures added { OnOk result (AddsRoot self.old self.new root) }
        ensures unchanged { OnErr result (self.new ≡ self.old) }
    {
        match &mut self.kept {
            RootStorage::Few(few) => {
                if few.len() < MOST_FEW {
                    return add_to_few(few, root);
                }
                let many = many_with(few, root)?;
                *self = many;
                Ok(())
            }
            RootStorage::Many(many) => {
                many.insert(root)?;
                Ok(())
            }
        }
    }

    /// Takes the root out.
    pub(crate) fn remove(&mut self, root: u32)
        ensures { DropsRoot self.old self.new root }
    {
        match &mut self.kept {
            RootStorage::Few(few) => take_from_few(few, root),
            RootStorage::Many(many) => {
                many.swap_remove(&root);
                if many.len() > LEAST_MANY {
                    return;
                }
                if let Ok(few) = few_of(many) {
                    *self = few;
                }
            }
        }
    }
}
