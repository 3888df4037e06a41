//! Joins, with the pairs of each query.

ghost use Rattle.std.specs.Prelude.{◌≡◌, ◌≤◌, ◌<◌, ◌↔◌, true, false, Err, length, [], All, IfOk};
ghost use Rattle.std.specs.Prelude.{OnOk, OnErr};
ghost use Rattle.join_bindings.specs.declared.fault.ApplyFault.{ApplyFault};
ghost use Rattle.join_bindings.specs.Events.{AreJoinEvents};
ghost use Rattle.join_file.specs.Sound.{IsSound};
ghost use Rattle.join_bindings.specs.State.{family, ArePut, MayCome};

use crate::change::change;
use crate::event::{JoinEvent, put_in_order};
use crate::fault::ApplyFault;
use crate::found::add_found;
use crate::query_pairs::QueryPairs;
use join_file::JoinDef;
use rpq_base::{Event, KeyedHash, Memory};
use std::alloc::Global;
use std::marker::Model;
use std::random::RandomSource;
use std::sync::Arc;

/// Joins over the pairs of queries.
pub struct Joins {
    alloc: Global,
    defs: Arc<Vec<JoinDef>>,
    sets: QueryPairs,
    spent: bool,
}

impl Drop for Joins {
    fn drop(self) {
        let Joins {
            alloc: _alloc,
            defs: _defs,
            sets: _sets,
            spent: _spent,
        } = self;
    }
}

impl Model for Joins {
    ghost use Rattle.std.specs.Prelude.{◌≤◌, length, All};
    ghost use Rattle.join_bindings.specs.State.{JoinsValue};
    ghost use Rattle.join_file.specs.Sound.{IsSound};

    ghost Value = { JoinsValue };

    ghost view = { λ joins. record {
      joins = joins.defs.value.items;
      pairs = joins.sets;
      spent = joins.spent;
    } };

    ghost invariant = { λ joins. (length joins.defs.value.items ≤ 32)
        × All (IsSound (length joins.sets)) joins.defs.value.items };
}

/// Changes the pairs by the events; what the joins lose and gain.
fn moved(
    alloc: Global,
    defs: &[JoinDef],
    sets: &mut QueryPairs,
    events: &[Event],
) -> Result<Vec<JoinEvent>, Memory>
    requires few { length defs.now ≤ 32 }
    requires sound { All (IsSound (length sets.old)) defs.now }
    requires may { MayCome sets.old events.now }
    ensures many { length sets.new ≡ length sets.old }
    ensures put { OnOk result (ArePut sets.old sets.new events.now) }
    ensures events { IfOk result (λ found. AreJoinEvents defs.now
        (family sets.old) (family sets.new) found.items) }
{
    let mut found = Vec::new(alloc);
    add_found(&mut found, alloc, sets, defs, false, events)?;
    change(sets, events)?;
    add_found(&mut found, alloc, sets, defs, true, events)?;
    put_in_order(&mut found);
    Ok(found)
}

impl Joins {
    /// Joins over so many queries, which have no pairs yet.
    pub fn new<R: RandomSource>(
        rt: &R,
        alloc: Global,
        defs: Arc<Vec<JoinDef>>,
        queries: u32,
    ) -> Result<Joins, Memory>
        requires few { length defs.value.items ≤ 32 }
        requires sound { All (IsSound queries) defs.value.items }
        ensures joins { IfOk result (λ joins. joins.joins ≡ defs.value.items) }
        ensures many { IfOk result (λ joins. length joins.pairs ≡ queries) }
        ensures blank { IfOk result (λ joins. All (λ pairs. pairs ≡ []) joins.pairs) }
        ensures fresh { IfOk result (λ joins. joins.spent ≡ false) }
    {
        let sets = QueryPairs::new(alloc, KeyedHash::new(rt), defs.as_slice(), queries)?;
        Ok(Joins {
            alloc,
            defs,
            sets,
            spent: false,
        })
    }

    /// The joins, each at the place that the events of its bindings tell.
    pub fn defs(&self) -> &[JoinDef]
        ensures { result.now ≡ self.now.joins }
    {
        self.defs.as_slice()
    }

    /// Changes the pairs by the events, and tells what the joins lose and gain: by join, what is
    /// lost before what is gained, then by binding. The faults come in the order of [`ApplyFault`].
    pub fn apply(&mut self, events: &[Event]) -> Result<Vec<JoinEvent>, ApplyFault>
        requires { MayCome self.old.pairs events.now }
        ensures events { IfOk result (λ found. AreJoinEvents self.old.joins
            (family self.old.pairs) (family self.new.pairs) found.items) }
        ensures put { OnOk result (ArePut self.old.pairs self.new.pairs events.now) }
        ensures joins { self.new.joins ≡ self.old.joins }
        ensures many { length self.new.pairs ≡ length self.old.pairs }
        ensures cause { (result ≡ Err ApplyFault.Spent) ↔ (self.old.spent ≡ true) }
        ensures ok { OnOk result (self.new.spent ≡ false) }
        ensures err { OnErr result (self.new.spent ≡ true) }
    {
        if self.spent {
            return Err(ApplyFault::Spent);
        }
        self.spent = true;
        let found = moved(self.alloc, self.defs.as_slice(), &mut self.sets, events)?;
        self.spent = false;
        Ok(found)
    }
}
