//! A list with the items that are there, and what it was when others left.

ghost use Rattle.std.specs.Prelude.{◌≡◌, ◌≤◌, ◌<◌, ◌^◌, ◌∷◌, [], ◌++◌, length, drop, OnOk, OnErr};
ghost use Rattle.kept_list.specs.KeptList.{Forgets};

use std::alloc::{AllocError, Global};
use std::marker::Model;
use std::snapshot::Snapshot;

/// A list that only grows, and whose first items may be gone.
///
/// Positions count all items, so they stay when items leave. Contracts see the items, those that
/// are gone too, how many are gone, and how often some left, which tells a list from those inside
/// it.
#[derive(Drop)]
pub struct KeptList<T: Drop> {
    /// What it was when items left last. A snapshot has no bytes.
    whole: Option<Snapshot<KeptList<T>>>,
    base: u64,
    /// The items behind the first ones, which are gone.
    there: Vec<T>,
}

impl<T: Drop> Model for KeptList<T> {
    ghost use Rattle.std.specs.Prelude.{option_map};
    ghost use Rattle.kept_list.specs.KeptList.{KeptListValue, IsKeptList, joined};

    ghost Value = { KeptListValue T };

    ghost view = { λ list. joined (option_map (λ seen. seen.value) list.whole) list.base
        list.there.items };

    ghost size = { λ list. list.cuts };

    ghost invariant = { λ list. IsKeptList T
        (joined (option_map (λ seen. seen.value) list.whole) list.base list.there.items).items
        list.there.items list.base };
}

impl<T: Drop> KeptList<T> {
    /// The empty list.
    pub fn new(alloc: Global) -> KeptList<T>
        ensures items { result.items ≡ [] }
        ensures base { result.base ≡ 0 }
    {
        KeptList {
            whole: None,
            base: 0,
            there: Vec::new(alloc),
        }
    }

    /// The list of these items, of which none is gone and nothing is copied.
    pub fn of(items: Vec<T>) -> KeptList<T>
        ensures items { result.items ≡ items.items }
        ensures base { result.base ≡ 0 }
    {
        KeptList {
            whole: None,
            base: 0,
            there: items,
        }
    }

    /// How many items it has, with those that are gone.
    pub fn length(&self) -> u64
        ensures { result ≡ length self.now.items }
    {
        self.base + self.there.len() as u64
    }

    /// How many of the first items are gone.
    pub fn base(&self) -> u64
        ensures base { result ≡ self.now.base }
        ensures within { self.now.base ≤ length self.now.items }
    {
        self.base
    }

    /// The items that are there: all behind the first ones, as many as [`KeptList::base`] says.
    pub fn as_slice(&self) -> &[T]
        ensures { result.now ≡ drop self.now.base self.now.items }
    {
        self.there.as_slice()
    }

    /// The items behind so many first ones, which are at least those that are gone.
    pub fn after(&self, position: u64) -> &[T]
        requires there { self.now.base ≤ position }
        requires within { position ≤ length self.now.items }
        ensures { result.now ≡ drop position self.now.items }
    {
        &self.there[(position - self.base) as usize..]
    }

    /// Puts an item at the end. After an error the list is what it was.
    pub fn push(&mut self, item: T) -> Result<(), AllocError>
        requires { length self.old.items < 2 ^ 62 }
        ensures ok { OnOk result (self.new.items ≡ self.old.items ++ item ∷ []) }
        ensures err { OnErr result (self.new.items ≡ self.old.items) }
        ensures base { self.new.base ≡ self.old.base }
    {
        self.there.push(item)?;
        Ok(())
    }

    /// Gives up the first items, so many of them. No more than these are gone then, unless more
    /// were, and at most twice as many are there as are behind them. Takes no memory.
    ///
    /// Items leave once they are a quarter of those that stay, so that a call moves at most four
    /// times as many items as it drops, and little is held that is given up.
    pub fn forget_first(&mut self, count: u64)
        requires { count ≤ length self.old.items }
        ensures { Forgets _ count self.old self.new }
    {
        let gone = count.saturating_sub(self.base) as usize;
        if gone >= (self.there.len() - gone) / 4 {
            let whole = Snapshot::of(&*self);
            drop(self.there.drain(..gone));
            self.base += gone as u64;
            self.whole = Some(whole);
        }
    }
}
