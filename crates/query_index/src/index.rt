//! The index of a query.

ghost use Rattle.std.specs.Prelude.{◌≡◌, ℕ, List, [], IfOk};
ghost use Rattle.rpq_base.specs.declared.data.Entry.{Entry as EntryTaken};
ghost use Rattle.query_index.specs.Index.{IsForestFor, IsIndexFor};

use crate::answering::mode_of;
use crate::automaton::copy_of;
use crate::stale::StaleRoots;
use answer_rows::Rows;
use delta_forest::{Forest, kept_is_best};
use index_laws::{index_keeps_bests, stores_follow};
use query_file::Compiled;
use rpq_base::Memory;
use std::alloc::Global;
use std::marker::Model;
use window_clock::WindowClock;

/// What is kept of a history for one query: the clock of its window, its edges with the trees of
/// best paths, and the rows of answers that were shown last.
///
/// Contracts see these, and the roots that are stale. It belongs to the query that it was made for
/// and to the names by whose numbers it takes edges, which each call is given anew.
#[derive(Drop)]
pub struct QueryIndex {
    pub(crate) clock: WindowClock,
    pub(crate) forest: Forest,
    pub(crate) shown: Rows,
    /// The roots whose trees were touched since then.
    pub(crate) stale: StaleRoots,
}

impl Model for QueryIndex {
    ghost use Rattle.query_index.specs.IndexValue.{IndexValue};

    ghost Value = { IndexValue };

    ghost view = { λ index. record {
      clock = index.clock;
      forest = index.forest;
      shown = index.shown;
      stale = index.stale;
    } };
}

impl QueryIndex {
    /// The index of the query over the empty history, to which no name has a number yet. It takes
    /// memory from the allocator, also later. The only error is [`Memory`].
    pub fn new(alloc: Global, query: &Compiled) -> Result<QueryIndex, Memory>
        ensures { IfOk result (IsIndexFor query.now [] 0 []) }
    {
        let window = query.def.window;
        let clock = WindowClock::new(window.size, window.slide);
        let forest = Forest::new(alloc, copy_of(alloc, &query.dfa)?)?;
        let _broken = forest.broken();
        stores_follow();
        Ok(QueryIndex {
            clock,
            forest,
            shown: Rows::new(alloc),
            stale: StaleRoots::Every,
        })
    }

    /// The clock of the history.
    pub fn clock(&self) -> u64
        ensures { result ≡ self.now.clock.clock }
    {
        self.clock.clock()
    }

    /// The forest of the index, which is one of this query.
    pub fn forest(&self, query: &Compiled) -> &Forest
        ensures forest { result.now ≡ self.now.forest }
        ensures is { (history : List EntryTaken) (fed : ℕ) (names : List (List ℕ)) →
            IsIndexFor query.now history fed names self.now →
            IsForestFor query.now history names result.now }
    {
        // these are called for their clauses
        let _mode = mode_of(query);
        kept_is_best();
        index_keeps_bests();
        self.trees()
    }

    /// The forest.
    pub(crate) fn trees(&self) -> &Forest
        ensures { result.now ≡ self.now.forest }
    {
        &self.forest
    }
}
