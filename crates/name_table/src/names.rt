//! The table of names.

ghost use Rattle.std.specs.Prelude.{◌≡◌, ◌<◌, ◌+◌, ◌-◌, ◌^◌, ◌∷◌, ◌++◌, [], ℕ, length};
ghost use Rattle.std.specs.Prelude.{IfOk, OnOk, OnErr, Some, None, is_some, not, slice_get};
ghost use Rattle.std.specs.Prelude.{if◌then◌else◌};
ghost use Rattle.rpq_base.specs.Order.{name_cmp};
ghost use Rattle.name_table.specs.Keys.{beginning, sort_key, AreBytes};
ghost use Rattle.name_table.specs.Names.{name_at, number_of, with_name, AreSmall, KeepsNumbers};
ghost use Rattle.name_table.specs.Ranks.{AreRanks};

use crate::ranks::{numbers_by_rank, places_in};
use crate::sort_key::sort_key;
use indexmap::IndexMap;
use rpq_base::{KeyedHash, Memory, Name, TryClone, bytes_compared};
use std::alloc::Global;
use std::cmp::Ordering;
use std::marker::Model;
use std::random::RandomSource;

/// What the first eight of sixteen bytes count, as the digits of one number.
const BEHIND_BEGINNING: u128 = 0x1_0000_0000_0000_0000;

/// Names with their numbers, from 0 in the order of their first sight.
///
/// Contracts see it as the list of the names, in which the number of a name is its place. A name
/// that has a number keeps it.
#[derive(Drop)]
pub struct Names {
    alloc: Global,
    /// The names in their order, each found by its own hash, and beside each its sort key.
    names: IndexMap<Name, u128, KeyedHash>,
    /// The ranks of the names that had numbers when they were last made, by these numbers.
    ranks: Vec<u32>,
    /// How many events were told since then.
    told: usize,
}

impl Model for Names {
    ghost use Rattle.std.specs.Prelude.{List, ℕ};

    ghost Value = { List (List ℕ) };

    ghost use Rattle.name_table.specs.Table.{names_of, IsTable};
    ghost use Rattle.name_table.specs.Ranks.{AreRanks};

    ghost view = { λ table. names_of table.names.entries };

    ghost invariant = { λ table. IsTable table.names.entries
        × AreRanks (names_of table.names.entries) table.ranks.items };
}

impl Names {
    /// A table without names. The keys of its hash come from the system; where it has none to give,
    /// the hash goes without. It takes memory with the first name.
    pub fn new<R: RandomSource>(rt: &R, alloc: Global) -> Result<Names, Memory>
        ensures { IfOk result (λ names. names ≡ []) }
    {
        Ok(Names {
            alloc,
            names: IndexMap::with_hasher(alloc, KeyedHash::new(rt)),
            ranks: Vec::new(alloc),
            told: 0,
        })
    }

    /// Forgets all names: the table is as a new one with the same keys. It takes no memory, and
    /// gives back that of the names.
    pub fn clear(&mut self)
        ensures { self.new ≡ [] }
    {
        let hash = *self.names.hasher();
        self.names = IndexMap::with_hasher(self.alloc, hash);
        self.ranks = Vec::new(self.alloc);
        self.told = 0;
    }

    /// The number of the name, which a new name gets now: the number of those before it; and
    /// whether the name is new. There are fewer than 2^32 - 1 names. The only error is [`Memory`],
    /// after which the table is as before.
    pub fn number(&mut self, name: &Name) -> Result<(u32, bool), Memory>
        requires { length self.old < 2 ^ 32 - 1 }
        ensures number { IfOk result (λ found. number_of self.new name.now ≡ Some found.0) }
        ensures new { IfOk result (λ found. found.1 ≡ not (is_some (number_of self.old name.now))) }
        ensures len { IfOk result (λ found.
            length self.new ≡ length self.old + (if found.1 then 1 else 0)) }
        ensures names { OnOk result (self.new ≡ with_name self.old name.now) }
        ensures kept { OnOk result (KeepsNumbers self.old self.new) }
        ensures unchanged { OnErr result (self.new ≡ self.old) }
    {
        match self.find(name) {
            Some(number) => Ok((number, false)),
            None => Ok((self.add(name)?, true)),
        }
    }

    /// Gives a new name the next number.
    fn add(&mut self, name: &Name) -> Result<u32, Memory>
        requires few { length self.old < 2 ^ 32 - 1 }
        requires new { number_of self.old name.now ≡ None }
        ensures number { IfOk result (λ number. number_of self.new name.now ≡ Some number) }
        ensures names { OnOk result (self.new ≡ self.old ++ name.now ∷ []) }
        ensures kept { OnOk result (KeepsNumbers self.old self.new) }
        ensures unchanged { OnErr result (self.new ≡ self.old) }
    {
        let number = self.names.len() as u32;
        self.names.insert(name.copy()?, sort_key(name.as_bytes()))?;
        Ok(number)
    }

    /// The number of the name, or none where it has none, by one look-up.
    pub fn find(&self, name: &Name) -> Option<u32>
        ensures { result ≡ number_of self.now name.now }
    {
        match self.names.get_index_of(name) {
            Some(number) => Some(number as u32),
            None => None,
        }
    }

    /// The name of this number, by one index.
    pub fn name_of(&self, number: u32) -> &Name
        requires { number < length self.now }
        ensures name { slice_get self.now number ≡ Some result.now }
        ensures number { number_of self.now result.now ≡ Some number }
    {
        &self.names.keys().as_slice()[number as usize]
    }

    /// Each name stands once in the table, so the name of a number has that number. Does nothing.
    pub fn keeps_names_apart(&self)
        ensures { (number : ℕ) → number < length self.now →
            number_of self.now (name_at self.now number) ≡ Some number }
    {
        let _ = &self.names;
    }

    /// Each number is below the greatest of 32 bits. Does nothing.
    pub fn keeps_numbers_small(&self)
        ensures { AreSmall self.now }
    {
        let _ = &self.names;
    }

    /// The ranks of the names with the first numbers, by these numbers: of two of them, the one
    /// with the lower rank is before the other in the order of names. A name that is new since the
    /// ranks were last made has none; [`Names::note_told`] makes them.
    pub fn ranks(&self) -> &[u32]
        ensures { AreRanks self.now result.now }
    {
        &self.ranks
    }

    /// Counts events that were told, and makes the ranks of all names anew where some name has none
    /// and, since they were last made, four times as many events were told as there are names. So
    /// the ranks cost each event O(log n) steps, amortized. Where memory for them is lacking, those
    /// that there are stay.
    pub fn note_told(&mut self, events: usize)
        ensures { self.new ≡ self.old }
    {
        self.told = self.told.saturating_add(events);
        if self.ranks.len() < self.names.len() && self.told / 4 >= self.names.len() {
            self.told = 0;
            self.renew_ranks();
        }
    }

    /// Makes the ranks anew, where there is memory for it.
    fn renew_ranks(&mut self)
        ensures { self.new ≡ self.old }
    {
        if let Ok(ranks) = self.new_ranks() {
            self.ranks = ranks;
        }
    }

    /// The ranks of all names.
    fn new_ranks(&self) -> Result<Vec<u32>, Memory>
        ensures { IfOk result (λ ranks. AreRanks self.now ranks.items) }
    {
        let mut order = numbers_by_rank(self.alloc, &self.ranks, self.names.len() as u32)?;
        order.sort_by(|first, second| self.compare(*first, *second))?;
        places_in(self.alloc, &order)
    }

    /// The order of the names of these numbers, by their bytes. A number that no name has is before
    /// all names. Where both have ranks, these are all that is looked at; else the names' first 16
    /// bytes mostly are.
    #[inline]
    pub fn compare(&self, first: u32, second: u32) -> Ordering
        ensures { result ≡ name_cmp (name_at self.now first) (name_at self.now second) }
    {
        match (
            self.ranks.get(first as usize),
            self.ranks.get(second as usize),
        ) {
            (Some(rank), Some(other)) => rank.cmp(other),
            _ => self.compare_bytes(first, second),
        }
    }

    /// The order of the names of these numbers, by their keys, and where they share one by all
    /// their bytes, which aren't read where both are one name.
    #[inline(never)]
    fn compare_bytes(&self, first: u32, second: u32) -> Ordering
        ensures { result ≡ name_cmp (name_at self.now first) (name_at self.now second) }
    {
        let key = self.key_of(first);
        let other = self.key_of(second);
        if key != other {
            key.cmp(&other)
        } else if first == second {
            Ordering::Equal
        } else {
            bytes_compared(self.bytes_of(first), self.bytes_of(second))
        }
    }

    /// The beginning of the name of this number, by one index: its first eight bytes as one number,
    /// the first byte the most significant, and 0 where the name is shorter or where there is none.
    /// Of two names whose beginnings differ, the one with the lesser is before the other.
    pub fn beginning_of(&self, number: u32) -> u64
        ensures beginning { result ≡ beginning (name_at self.now number) }
        ensures bytes { AreBytes (name_at self.now number) }
    {
        (self.key_of(number) / BEHIND_BEGINNING) as u64
    }

    /// The sort key of the name of this number, by one index: its first 16 bytes as one number, the
    /// first byte the most significant, and 0 where the name is shorter or where there is none.
    fn key_of(&self, number: u32) -> u128
        ensures key { result ≡ sort_key (name_at self.now number) }
        ensures bytes { AreBytes (name_at self.now number) }
    {
        match self.names.get_index(number as usize) {
            Some((_, key)) => *key,
            None => 0,
        }
    }

    /// The bytes of the name of this number, or none where there is no name.
    fn bytes_of(&self, number: u32) -> &[u8]
        ensures { result.now ≡ name_at self.now number }
    {
        match self.names.get_index(number as usize) {
            Some((name, _)) => name.as_bytes(),
            None => &[],
        }
    }
}
