//! Query definitions.

ghost use Rattle.std.specs.Prelude.{◌≡◌, ◌<◌, ◌≤◌, length, IfOk, IfSome};
ghost use Rattle.rpq_model.specs.Query.{place_named, query_named};

use crate::mode::Mode;
use crate::window::Window;
use path_syntax::{Expr, Language};
use rpq_base::{Memory, Name, TryClone};
use std::alloc::Global;
use std::marker::Model;

/// A query: its name, its window, the paths that it takes, and its expression.
///
/// Contracts see it as a `Query` of `specs/`, with the expression as a tree.
#[derive(Debug)]
pub struct QueryDef {
    pub name: Name,
    pub window: Window,
    pub mode: Mode,
    pub expr: Expr,
}

impl Drop for QueryDef {
    fn drop(self) {
        let QueryDef {
            name: _name,
            window: _window,
            mode: _mode,
            expr: _expr,
        } = self;
    }
}

impl Model for QueryDef {
    ghost use Rattle.path_syntax.specs.Expression.{expression};
    ghost use Rattle.rpq_model.specs.Query.{Query};
    ghost use Rattle.rpq_model.specs.QueryCode.{query_code};

    ghost Value = { Query };

    ghost coded = { query_code };

    ghost view = { λ query. record {
      name = query.name;
      window = query.window;
      mode = query.mode;
      expr = expression query.expr;
    } };
}

/// The language of a query is that of its expression.
impl Language for QueryDef {
    ghost use Rattle.rpq_model.specs.Query.{language_of};

    ghost contains = { λ query. language_of query };
}

impl QueryDef {
    /// An equal definition, whose expression is copied with the allocator that is given.
    pub fn copy(&self, alloc: Global) -> Result<QueryDef, Memory>
        ensures { IfOk result (λ copy. copy ≡ self.now) }
    {
        Ok(QueryDef {
            name: self.name.copy()?,
            window: self.window,
            mode: self.mode,
            expr: self.expr.copy(alloc)?,
        })
    }
}

/// The place of the query with this name, from 0: of the first one, where more have it.
pub fn place_named(queries: &[QueryDef], name: &[u8]) -> Option<usize>
    ensures exact { result ≡ place_named queries.now name.now }
    ensures within { IfSome result (λ place. place < length queries.now) }
{
    queries
        .iter()
        .position(|query| query.name.as_bytes() == name)
}

/// The number of the query with this name, which is its place, or this fault where none has it.
#[tactic(auto, unfolding(crate::specs::Query::query_named))]
pub fn find_query<F: Drop>(queries: &[QueryDef], name: &[u8], unknown: F) -> Result<u32, F>
    requires { length queries.now ≤ 64 }
    ensures exact { result ≡ query_named unknown queries.now name.now }
    ensures within { IfOk result (λ number. number < length queries.now) }
{
    match place_named(queries, name) {
        Some(place) => Ok(place as u32),
        None => Err(unknown),
    }
}
