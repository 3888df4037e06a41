//! Laws of the definitions. The functions do nothing: their contracts are the laws.

ghost use Rattle.std.specs.Prelude.{◌≡◌, ◌-◌, ◌^◌, ◌↔◌, IsTrue};
ghost use Rattle.rpq_base.specs.declared.data.TheConstants.{MAX_TIME};
ghost use Rattle.rpq_base.specs.Laws.{SameIsEqual};
ghost use Rattle.rpq_base.specs.Order.{name_cmp, label_cmp, pair_cmp};
ghost use Rattle.rpq_base.specs.TupleValue.{TupleValue};
ghost use Rattle.rpq_base.specs.declared.data.Label.{Label};
ghost use Rattle.rpq_base.specs.declared.data.Edge.{Edge};
ghost use Rattle.rpq_base.specs.declared.data.Act.{Act};
ghost use Rattle.rpq_base.specs.declared.data.Entry.{Entry};
ghost use Rattle.rpq_base.specs.declared.data.Pair.{Pair};
ghost use Rattle.rpq_base.specs.declared.data.Event.{Event};

use crate::data::{Act, Edge, Entry, Event, Label, Pair, Tuple};
use crate::name::Name;

/// The tests for equal names, labels, edges and pairs find exactly the equal ones.
pub fn same_is_equal()
    ensures { SameIsEqual }
{}

/// The greatest time of a tuple is 2^62 - 1.
pub fn greatest_time()
    ensures { MAX_TIME ≡ 2 ^ 62 - 1 }
{}

/// Names, labels and pairs are compared by the orders that the definitions name.
pub fn orders_are_named()
    ensures names { ⟦<Name as Ord>⟧.cmp ≡ name_cmp }
    ensures labels { ⟦<Label as Ord>⟧.cmp ≡ label_cmp }
    ensures pairs { ⟦<Pair as Ord>⟧.cmp ≡ pair_cmp }
{}

/// `==` on labels, edges, acts, entries, pairs and events finds exactly the equal ones.
pub fn equality_is_exact()
    ensures labels { (first second : Label) →
        IsTrue (⟦<Label as PartialEq>⟧.eq first second) ↔ (first ≡ second) }
    ensures edges { (first second : Edge) →
        IsTrue (⟦<Edge as PartialEq>⟧.eq first second) ↔ (first ≡ second) }
    ensures acts { (first second : Act) →
        IsTrue (⟦<Act as PartialEq>⟧.eq first second) ↔ (first ≡ second) }
    ensures tuples { (first second : TupleValue) →
        IsTrue (⟦<Tuple as PartialEq>⟧.eq first second) ↔ (first ≡ second) }
    ensures entries { (first second : Entry) →
        IsTrue (⟦<Entry as PartialEq>⟧.eq first second) ↔ (first ≡ second) }
    ensures pairs { (first second : Pair) →
        IsTrue (⟦<Pair as PartialEq>⟧.eq first second) ↔ (first ≡ second) }
    ensures events { (first second : Event) →
        IsTrue (⟦<Event as PartialEq>⟧.eq first second) ↔ (first ≡ second) }
{}
