//! The entries of a best path.

ghost use Rattle.std.specs.Prelude.{◌≡◌, ◌<◌, List, Some, All, IfOk, length, slice_get};
ghost use Rattle.rpq_base.specs.declared.data.Entry.{Entry as EntryTaken};
ghost use Rattle.rpq_base.specs.declared.data.Pair.{Pair as PairShown};
ghost use Rattle.rpq_model.specs.Query.{Query};
ghost use Rattle.path_witness.specs.BestPaths.{IsBestFor};
ghost use Rattle.path_witness.specs.Shows.{Shows};
ghost use Rattle.path_witness.specs.Told.{IsSeen, IsBestOf, IsTold, least_with};

use crate::loops::cut_loops;
use crate::mark::Mark;
use crate::marks::Marks;
use crate::shown::ShownPath;
use index_laws::histories_have_stores;
use rpq_base::{Edge, Memory};
use rpq_model::Mode;
use std::alloc::Global;

impl Marks {
    /// The path of entries that shows a pair, for the query with this number, where these edges are
    /// a best path for the pair: one whose least value is the end of the answer.
    ///
    /// Where the query takes simple paths, the loops are taken out first. Then each edge stands for
    /// its entry that [`Marks::find`] tells, and the least of their deadlines is the end of the
    /// answer. The only error is [`Memory`]. It costs a look-up for each edge.
    pub fn show(&self, query: u32, path: &[Edge]) -> Result<ShownPath, Memory>
        requires { (history : List EntryTaken) × (def : Query) × (pair : PairShown)
            × IsBestFor self.now query path.now history def pair }
        ensures { IfOk result (λ shown.
            (history : List EntryTaken) (def : Query) (pair : PairShown) →
            IsBestFor self.now query path.now history def pair →
            Shows def history pair shown) }
    {
        // this law is called for its clause
        histories_have_stores();
        match mode_of(self, query) {
            Mode::Arbitrary => entries_of(self.alloc, self, query, path),
            Mode::Simple => {
                let cut = cut_loops(self.alloc, path)?;
                entries_of(self.alloc, self, query, &cut)
            }
        }
    }
}

/// The paths that the query with this number takes. Its window has a slide of at least 1.
fn mode_of(marks: &Marks, query: u32) -> Mode
    requires { query < length marks.now.queries }
    ensures mode { (def : Query) → slice_get marks.now.queries query ≡ Some def →
        result ≡ def.mode }
    ensures slide { (def : Query) → slice_get marks.now.queries query ≡ Some def →
        0 < def.window.slide }
{
    let def = &marks.queries[query as usize];
    // Opens the window, whose invariant says so.
    let _slide = def.window.slide;
    def.mode
}

/// The best mark of an edge of the window.
fn mark_of(marks: &Marks, query: u32, edge: &Edge) -> Mark
    requires { IsSeen marks.now query edge.now }
    ensures { IsBestOf marks.now query edge.now result }
{
    match marks.find(query, edge) {
        Some(mark) => mark,
        None => unreachable!(),
    }
}

/// The least of the deadlines so far, where there are any, and another one.
fn least_with(least: Option<u64>, deadline: u64) -> u64
    ensures { result ≡ least_with least deadline }
{
    match least {
        Some(other) => other.min(deadline),
        None => deadline,
    }
}

/// The positions of the best marks of edges of the window, and the least of their deadlines.
fn entries_of(alloc: Global, marks: &Marks, query: u32, edges: &[Edge]) -> Result<ShownPath, Memory>
    requires { All (IsSeen marks.now query) edges.now }
    ensures { IfOk result (λ shown. IsTold (IsBestOf marks.now query) edges.now shown) }
{
    let mut positions = Vec::new(alloc);
    let mut least = None;
    for place in 0..edges.len() {
        let edge = &edges[place];
        let mark = mark_of(marks, query, edge);
        positions.push(mark.position)?;
        least = Some(least_with(least, mark.deadline));
    }
    // A path has edges, so there is a deadline.
    let until = least.unwrap_or(0);
    Ok(ShownPath { until, positions })
}
