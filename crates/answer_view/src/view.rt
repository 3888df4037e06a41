//! Views.

ghost use Rattle.std.specs.Prelude.{◌≡◌, ◌<◌, ◌↔◌, [], length, IsTrue, IsSome, IfOk, IfNone, IfSome};
ghost use Rattle.answer_rows.specs.Answers.{pair, row_of, until_of};
ghost use Rattle.answer_view.specs.View.{rows_at};

use answer_rows::{Rows, Target};
use rpq_base::{Memory, Name};
use std::alloc::Global;
use std::marker::Model;
use std::sync::Arc;

/// The answers of several queries at a position of a history, each with its end, and the clock
/// there. Queries are numbered from 0.
#[derive(Debug)]
pub struct View {
    position: u64,
    clock: u64,
    rows: Vec<Rows>,
}

impl Drop for View {
    fn drop(self) {
        let View {
            position: _position,
            clock: _clock,
            rows: _rows,
        } = self;
    }
}

impl Model for View {
    ghost use Rattle.answer_view.specs.View.{ViewValue};

    ghost Value = { ViewValue };

    ghost view = { λ view. record {
      position = view.position;
      clock = view.clock;
      rows = view.rows.items;
    } };
}

impl View {
    /// The view of these answers, one `Rows` for each query, at this position and this clock.
    pub fn new(
        alloc: Global,
        position: u64,
        clock: u64,
        rows: Vec<Rows>,
    ) -> Result<Arc<View>, Memory>
        ensures { IfOk result (λ view. view.value
            ≡ record { position = position; clock = clock; rows = rows.items }) }
    {
        let view = View {
            position,
            clock,
            rows,
        };
        Ok(Arc::new(alloc, view)?)
    }

    /// The number of entries of the history.
    pub fn position(&self) -> u64
        ensures { result ≡ self.now.position }
    {
        self.position
    }

    /// The clock of the history: the greatest time of its entries, and 0 before any.
    pub fn clock(&self) -> u64
        ensures { result ≡ self.now.clock }
    {
        self.clock
    }

    /// The number of queries.
    pub fn queries(&self) -> usize
        ensures { result ≡ length self.now.rows }
    {
        self.rows.len()
    }

    /// The answers of all queries, in their order.
    pub fn all_rows(&self) -> &[Rows]
        ensures { result.now ≡ self.now.rows }
    {
        &self.rows
    }

    /// The answers of the query with this number.
    pub fn rows(&self, query: u32) -> &Rows
        requires { query < length self.now.rows }
        ensures { result.now ≡ rows_at self.now query }
    {
        &self.rows[query as usize]
    }

    /// Whether the pair of these vertices is an answer of the query.
    ///
    /// The time grows with the logarithms of the numbers of sources and of the source's targets.
    pub fn holds(&self, query: u32, from: &Name, to: &Name) -> bool
        requires { query < length self.now.rows }
        ensures { IsTrue result
            ↔ IsSome (until_of (rows_at self.now query) (pair from.now to.now)) }
    {
        self.until(query, from, to).is_some()
    }

    /// The targets of a source among the answers of the query, each with its end, in order; none
    /// where the source has no answer.
    ///
    /// The time grows with the logarithm of the number of sources.
    pub fn row(&self, query: u32, from: &Name) -> Option<&[Target]>
        requires { query < length self.now.rows }
        ensures none { IfNone result (row_of (rows_at self.now query) from.now ≡ []) }
        ensures row { IfSome result (λ row. row.now ≡ row_of (rows_at self.now query) from.now) }
        ensures some { IfSome result (λ row. 0 < length row.now) }
    {
        self.rows(query).row(from)
    }

    /// The number of the query's answers. Takes no time that grows with it.
    pub fn count(&self, query: u32) -> u128
        requires { query < length self.now.rows }
        ensures { result ≡ length (rows_at self.now query) }
    {
        self.rows(query).count()
    }

    /// The end of the pair of these vertices among the answers of the query, or none where it is no
    /// answer.
    ///
    /// The time grows with the logarithms of the numbers of sources and of the source's targets.
    pub fn until(&self, query: u32, from: &Name, to: &Name) -> Option<u64>
        requires { query < length self.now.rows }
        ensures { result ≡ until_of (rows_at self.now query) (pair from.now to.now) }
    {
        self.rows(query).until(from, to)
    }
}
