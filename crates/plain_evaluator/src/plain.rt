//! The answers of a query from scratch, by cases on its expression.

ghost use Rattle.std.specs.Prelude.{◌≡◌, IfOk};
ghost use Rattle.path_syntax.specs.Expression.{expression};
ghost use Rattle.path_syntax.specs.Language.{In};
ghost use Rattle.rpq_model.specs.declared.mode.Mode.TheVariants.{Arbitrary, Simple};
ghost use Rattle.rpq_model.specs.Answers.{IsJoinedBy, AreAnswers, AreAnswersAt};
ghost use Rattle.rpq_model.specs.Relations.{values, AreExactly};
ghost use Rattle.rpq_model.specs.Query.{path_query};
ghost use Rattle.rpq_model.specs.Window.{edges_at};

use crate::closure::closure;
use crate::distinct::distinct_edges;
use crate::relation::{composition, joined_by_label, union};
use crate::simple::joined_simply;
use path_syntax::{Expr, has_empty_word};
use rpq_base::{Edge, Entry, Memory, Pair};
use rpq_model::{Mode, QueryDef, Window, clock, inserted_edges, live_entries};
use std::alloc::Global;

/// The pairs that a path of the edges joins whose word is in the language of the expression. A path
/// has at least one edge, so the empty word joins no pair.
fn joined_pairs(alloc: Global, expr: &Expr, edges: &[&Edge]) -> Result<Vec<Pair>, Memory>
    ensures { IfOk result (λ pairs. AreExactly
        (IsJoinedBy (values edges.now) (In (expression expr.now)) Arbitrary) pairs.items) }
{
    match expr {
        Expr::Atom(label) => joined_by_label(alloc, label, edges),
        Expr::Seq(left, right) => {
            let firsts = joined_pairs(alloc, left, edges)?;
            let seconds = joined_pairs(alloc, right, edges)?;
            let no_first = has_empty_word(left);
            let no_second = has_empty_word(right);
            composition(alloc, &firsts, &seconds, no_first, no_second)
        }
        Expr::Alt(left, right) => {
            let pairs = joined_pairs(alloc, left, edges)?;
            let others = joined_pairs(alloc, right, edges)?;
            union(alloc, &pairs, &others)
        }
        Expr::Star(body) => closure(alloc, &joined_pairs(alloc, body, edges)?),
        Expr::Plus(body) => closure(alloc, &joined_pairs(alloc, body, edges)?),
        Expr::Opt(body) => joined_pairs(alloc, body, edges),
    }
}

/// The pairs that a simple path of the edges joins whose word is in the language of the expression.
/// Edges that are given more than once count once.
fn joined_simply_once(alloc: Global, expr: &Expr, edges: &[&Edge]) -> Result<Vec<Pair>, Memory>
    ensures { IfOk result (λ pairs. AreExactly
        (IsJoinedBy (values edges.now) (In (expression expr.now)) Simple) pairs.items) }
{
    let distinct = distinct_edges(alloc, edges)?;
    joined_simply(alloc, expr, &distinct)
}

/// The edges of the entries that are live at a clock, in order of place.
fn live_edges<'a>(
    alloc: Global,
    window: Window,
    now: u64,
    entries: &'a [Entry],
) -> Result<Vec<&'a Edge>, Memory>
    ensures { IfOk result (λ edges. values edges.items ≡ edges_at window now entries.now) }
{
    let live = live_entries(alloc, window, now, entries)?;
    inserted_edges(alloc, &live)
}

/// The answers of the query at this clock, which may be any number: sorted by source and then
/// target, each once.
pub(crate) fn answers_at(
    alloc: Global,
    query: &QueryDef,
    now: u64,
    entries: &[Entry],
) -> Result<Vec<Pair>, Memory>
    ensures { IfOk result (λ pairs.
        AreAnswersAt (path_query query.now) now entries.now pairs.items) }
{
    let edges = live_edges(alloc, query.window, now, entries)?;
    match query.mode {
        Mode::Arbitrary => joined_pairs(alloc, &query.expr, &edges),
        Mode::Simple => joined_simply_once(alloc, &query.expr, &edges),
    }
}

/// The answers of the query over the history of these entries, from scratch: sorted by source and
/// then target, each once. The only error is [`Memory`].
///
/// Edges that are live more than once count once. For an arbitrary query the time is polynomial:
/// the edges are gone through for each label of the expression, each sequence compares the pairs of
/// its two sides, and each star takes the closure of its body's pairs, in the cube of the number of
/// vertices. For a simple query all simple paths are gone through, which is exponential in the
/// number of edges, and by calls as deep as the longest of them.
pub fn plain_answers(
    alloc: Global,
    query: &QueryDef,
    entries: &[Entry],
) -> Result<Vec<Pair>, Memory>
    ensures { IfOk result (λ pairs. AreAnswers (path_query query.now) entries.now pairs.items) }
{
    answers_at(alloc, query, clock(entries), entries)
}
