//! The definitions of the queries of a run.

ghost use Rattle.std.specs.Prelude.{◌<◌, All};

use rpq_model::QueryDef;

/// Does nothing. What it says is that each query's window moves, which opening it shows.
pub fn windows_move(queries: &[QueryDef])
    ensures { All (λ query. 0 < query.window.slide) queries.now }
{
    for query in queries {
        let _slide = query.window.slide;
    }
}
