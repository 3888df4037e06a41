//! A list as a chain of what it was before.

ghost use Rattle.std.specs.Prelude.{◌≡◌, ◌∷◌, [], ◌++◌};

use std::marker::Model;
use std::snapshot::Snapshot;

/// What the list was before the last push, and what this one added: an item, or the items of a
/// list. An empty list has none of the three.
///
/// A snapshot has no bytes, so a chain takes a few bytes, whatever its length. Contracts see the
/// items and the number of pushes. That number is the size of a chain: a value must be larger than
/// one of its own type inside it.
#[derive(Drop)]
struct Chain<T: Drop> {
    before: Option<Snapshot<Chain<T>>>,
    item: Option<Snapshot<T>>,
    items: Option<Snapshot<Vec<T>>>,
}

impl<T: Drop> Model for Chain<T> {
    ghost use Rattle.std.specs.Prelude.{option_map};
    ghost use Rattle.ghost_list.specs.Chain.{ChainValue, linked};

    ghost Value = { ChainValue T };

    ghost view = { λ chain. linked (option_map (λ seen. seen.value) chain.before)
        (option_map (λ seen. seen.value) chain.item)
        (option_map (λ seen. seen.value.items) chain.items) };

    ghost size = { λ chain. chain.pushes };
}

/// A list that only grows, and of which nothing is in memory. Contracts see its items.
#[derive(Drop)]
pub struct GhostList<T: Drop> {
    chain: Chain<T>,
}

impl<T: Drop> Model for GhostList<T> {
    ghost use Rattle.std.specs.Prelude.{List};

    ghost Value = { List T };

    ghost view = { λ list. list.chain.items };
}

impl<T: Drop> GhostList<T> {
    /// The empty list.
    pub fn new() -> GhostList<T>
        ensures { result ≡ [] }
    {
        GhostList {
            chain: Chain {
                before: None,
                item: None,
                items: None,
            },
        }
    }

    /// Puts an item at the end. Takes no memory, and reads nothing of the item.
    pub fn push(&mut self, item: &T)
        ensures { self.new ≡ self.old ++ item.now ∷ [] }
    {
        let before = Snapshot::of(&self.chain);
        self.chain = Chain {
            before: Some(before),
            item: Some(Snapshot::of(item)),
            items: None,
        };
    }

    /// Puts all items of a list at the end. Takes no memory, and reads nothing of the list, so the
    /// time is the same for any number of items.
    pub fn push_all(&mut self, items: &Vec<T>)
        ensures { self.new ≡ self.old ++ items.now.items }
    {
        let before = Snapshot::of(&self.chain);
        self.chain = Chain {
            before: Some(before),
            item: None,
            items: Some(Snapshot::of(items)),
        };
    }
}
