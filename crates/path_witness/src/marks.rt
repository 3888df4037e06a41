//! The best live entry of each edge, for each of some queries.

ghost use Rattle.std.specs.Prelude.{◌≡◌, ◌<◌, ◌+◌, ◌^◌, ◌++◌, ◌∷◌, [], List, Some, IfOk, OnOk};
ghost use Rattle.std.specs.Prelude.{OnErr, slice_get};
ghost use Rattle.rpq_base.specs.declared.data.Entry.{Entry as EntryTaken};
ghost use Rattle.rpq_model.specs.Query.{Query};
ghost use Rattle.path_witness.specs.Found.{IsFound};
ghost use Rattle.path_witness.specs.Marks.{StandsFor};
ghost use Rattle.path_witness.specs.Taking.{TakeOne};

use crate::edge_marks::{MarkRows, forget, kept_mark, raise, remove};
use crate::mark::{Mark, mark_above};
use indexmap::IndexMap;
use rpq_base::{Act, Edge, Entry, KeyedHash, Memory};
use rpq_model::QueryDef;
use std::alloc::Global;
use std::marker::Model;
use std::random::RandomSource;
use std::sync::Arc;

/// For each edge, and each of some queries, the live entry of the edge that lasts longest, over a
/// history that grows by one entry at a time. Queries are numbered from 0. An edge takes 16 bytes
/// for each query, beside its names.
///
/// Contracts see the queries, and what is kept of the history, of which only `StandsFor` speaks.
pub struct Marks {
    pub(crate) alloc: Global,
    pub(crate) queries: Arc<Vec<QueryDef>>,
    /// How many entries were taken.
    taken: u64,
    /// The greatest time among them.
    clock: u64,
    /// The marks of each edge of which an entry may be live.
    rows: MarkRows,
    /// How many entries more are taken before the edges are looked through for those that no
    /// window holds any more.
    until_look: usize,
}

impl Drop for Marks {
    fn drop(self) {
        let Marks {
            alloc: _alloc,
            queries: _queries,
            taken: _taken,
            clock: _clock,
            rows: _rows,
            until_look: _until_look,
        } = self;
    }
}

/// How many entries are taken between two looks at the least.
const LEAST_BETWEEN: usize = 64;

impl Model for Marks {
    ghost use Rattle.std.specs.Coded.{codes};
    ghost use Rattle.rpq_model.specs.QueryCode.{query_code};
    ghost use Rattle.path_witness.specs.Marks.{MarksValue};

    ghost Value = { MarksValue };

    ghost coded = { Prim.hlevel (codes, query_code) };

    ghost view = { λ marks. record {
      queries = marks.queries.value.items;
      taken = marks.taken;
      clock = marks.clock;
      rows = marks.rows.entries;
    } };
}

impl Marks {
    /// Marks for these queries, which stand for the empty history. It takes memory with the first
    /// insert, from the allocator. The keys of its hash come from the system; where it has none to
    /// give, the hash goes without. The only error is [`Memory`].
    pub fn new<R: RandomSource>(
        rt: &R,
        alloc: Global,
        queries: Arc<Vec<QueryDef>>,
    ) -> Result<Marks, Memory>
        ensures queries { IfOk result (λ marks. marks.queries ≡ queries.value.items) }
        ensures stands { IfOk result (λ marks. StandsFor marks []) }
    {
        Ok(Marks {
            alloc,
            queries,
            taken: 0,
            clock: 0,
            rows: IndexMap::with_hasher(alloc, KeyedHash::new(rt)),
            until_look: LEAST_BETWEEN,
        })
    }

    /// Takes one more entry, while there are numbers left for its position. The only error is
    /// [`Memory`], after which nothing has changed.
    ///
    /// It costs one look-up of the edge, and a deadline for each query. Now and then, after as many
    /// entries as there are edges, all edges are looked through, and those that no window holds go;
    /// so there are at most some entries more than twice as many edges as are live for a query.
    pub fn take(&mut self, entry: &Entry) -> Result<(), Memory>
        requires { self.old.taken + 1 < 2 ^ 64 }
        ensures queries { self.new.queries ≡ self.old.queries }
        ensures counted { OnOk result (self.new.taken ≡ self.old.taken + 1) }
        ensures taken { OnOk result ((history : List EntryTaken) → StandsFor self.old history →
            StandsFor self.new (history ++ entry.now ∷ [])) }
        ensures unchanged { OnErr result (self.new ≡ self.old) }
    {
        let position = self.taken + 1;
        let queries = self.queries.as_slice();
        take_one(self.alloc, &mut self.rows, queries, position, entry)?;
        self.taken = position;
        self.clock = self.clock.max(entry.tuple.time);
        self.look_through();
        Ok(())
    }

    /// Looks through the edges, where it is time to.
    fn look_through(&mut self)
        ensures stands { (history : List EntryTaken) → StandsFor self.old history →
            StandsFor self.new history }
        ensures queries { self.new.queries ≡ self.old.queries }
        ensures taken { self.new.taken ≡ self.old.taken }
    {
        if self.until_look > 0 {
            self.until_look -= 1;
            return;
        }
        forget(&mut self.rows, self.clock);
        self.until_look = self.rows.len().max(LEAST_BETWEEN);
    }

    /// The live entry of the edge of greatest deadline, in the window of the query with this
    /// number, and among those the one of greatest position; none exactly where no entry of the
    /// edge is live. It takes no memory, and costs one look-up.
    pub fn find(&self, query: u32, edge: &Edge) -> Option<Mark>
        ensures { (history : List EntryTaken) (def : Query) →
            slice_get self.now.queries query ≡ Some def → StandsFor self.now history →
            IsFound def.window history edge.now result }
    {
        let def = self.queries.get(query as usize)?;
        // Opens the window, whose invariant says that its slide is at least 1.
        let _slide = def.window.slide;
        mark_above(kept_mark(&self.rows, edge, query as usize), self.clock)
    }
}

/// Takes one more entry into the rows. The only error is [`Memory`], after which they are as
/// before.
fn take_one(
    alloc: Global,
    rows: &mut MarkRows,
    queries: &[QueryDef],
    position: u64,
    entry: &Entry,
) -> Result<(), Memory>
    ensures taken { OnOk result
        (TakeOne queries.now position entry.now rows.old.entries rows.new.entries) }
    ensures unchanged { OnErr result (rows.new.entries ≡ rows.old.entries) }
{
    match &entry.tuple.act {
        Act::Insert { edge, .. } => raise(alloc, rows, queries, edge, position, &entry.tuple),
        Act::Delete(edge) => {
            remove(rows, edge);
            Ok(())
        }
        Act::Tick => Ok(()),
    }
}
