//! Roots in the order in which they were added.

ghost use Rattle.std.specs.Prelude.{◌≡◌, ◌<◌, [], length, OnOk, OnErr};
ghost use Rattle.query_index.specs.RootList.{AddsRoot, AreFlagged, SameFlags, flag_of};

use rpq_base::Memory;
use std::alloc::Global;
use std::marker::Model;

/// Some roots in the order in which they were added, each once.
///
/// Roots are small numbers with few gaps, so a flag for each number up to the greatest root says
/// which are there. This takes a byte for each number, and to add a root that is there costs one
/// look and no memory.
#[derive(Drop)]
pub struct RootList {
    roots: Vec<u32>,
    /// For each number whether it is one of the roots.
    flags: Vec<bool>,
}

impl Model for RootList {
    ghost use Rattle.std.specs.Prelude.{ℕ, List};
    ghost use Rattle.query_index.specs.RootList.{AreFlagged};

    ghost Value = { List ℕ };

    ghost view = { λ list. list.roots.items };

    ghost invariant = { λ list. AreFlagged list.roots.items list.flags.items };
}

/// Whether the flag of the root is set.
fn is_set(flags: &[bool], root: u32) -> bool
    ensures { result ≡ flag_of flags.now root }
{
    match flags.get(root as usize) {
        Some(flag) => *flag,
        None => false,
    }
}

/// Makes the flags long enough for the root.
fn reach(flags: &mut Vec<bool>, root: u32) -> Result<(), Memory>
    ensures long { OnOk result (root < length flags.new.items) }
    ensures same { SameFlags flags.old.items flags.new.items }
{
    let root = root as usize;
    if root >= flags.len() {
        flags.resize(root + 1, false)?;
    }
    Ok(())
}

/// Takes all roots out, and clears their flags.
fn take_out(roots: &mut Vec<u32>, flags: &mut Vec<bool>)
    requires { AreFlagged roots.old.items flags.old.items }
    ensures none { roots.new.items ≡ [] }
    ensures flagged { AreFlagged roots.new.items flags.new.items }
{
    while let Some(root) = roots.pop() {
        flags[root as usize] = false;
    }
}

impl RootList {
    /// No root is there. Takes no memory.
    pub(crate) fn new(alloc: Global) -> RootList
        ensures { result ≡ [] }
    {
        RootList {
            roots: Vec::new(alloc),
            flags: Vec::new(alloc),
        }
    }

    /// The roots.
    pub(crate) fn as_slice(&self) -> &[u32]
        ensures { result.now ≡ self.now }
    {
        &self.roots
    }

    /// Adds the root, where it isn't there. The only error is [`Memory`], after which the roots are
    /// as before.
    pub(crate) fn add(&mut self, root: u32) -> Result<(), Memory>
        ensures added { OnOk result (AddsRoot self.old root self.new) }
        ensures unchanged { OnErr result (self.new ≡ self.old) }
    {
        if is_set(&self.flags, root) {
            return Ok(());
        }
        reach(&mut self.flags, root)?;
        self.roots.push(root)?;
        self.flags[root as usize] = true;
        Ok(())
    }

    /// Takes all roots out, and keeps the memory. It goes through the roots that were there.
    pub(crate) fn clear(&mut self)
        ensures { self.new ≡ [] }
    {
        take_out(&mut self.roots, &mut self.flags);
    }
}
