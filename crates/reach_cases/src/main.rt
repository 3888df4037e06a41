//! A program that asks the libraries for edges that are taken backwards, for paths that show an
//! answer, and for joins, so that what they answer can be compared with what it should be. `stdin`
//! has the requests, and `stdout` the answers, which an evaluator from outside gave. `case_lines`
//! says what a line and its fields are.
//!
//! - `read EXPR`: an expression whose labels may be taken backwards, as it is written, how many
//!   labels stand in it, and `+` where it has the empty word, else `-`; or the fault of the text.
//! - `file TEXT`: the queries of a queries file with such expressions, `|` behind each: its name,
//!   how many states its automaton has, and its labels; or the first fault with the number of its
//!   line.
//! - `joins QUERIES TEXT`: the joins of a joins file over the queries of a queries file, `|` behind
//!   each: its name, how many variables it has, and its atoms, each a query's number, `:`, and its
//!   ends with `>` between them, a variable as `?` and its number; or the first fault.
//! - `marks QUERIES FROM LABEL TO TUPLES`: after each tuple what the first query knows of the edge,
//!   `;` behind each: the position and the deadline with `@` between them, or `-`.
//! - `shown QUERIES FROM TO UNTIL POSITIONS TUPLES`: `+` where the entries at these positions show
//!   of the first query that the pair is an answer until then, else `-`.
//! - `both QUERIES TUPLES`: what each tuple changes of the answers of the queries, whose labels may
//!   be taken backwards, `;` behind each.
//! - `bindings QUERY JOINS TUPLES`: what each tuple changes of the bindings of a joins file over
//!   one query, as lines, `;` behind each.
//! - `cut TUPLES`: the edges of the tuples without the loops of their path.
//!
//! `QUERIES` is a queries file. `TUPLES` are lines of a stream, and `POSITIONS` numbers, with `;`
//! between them.
#![tactic(auto)]

mod bindings;
mod expressions;
mod feeds;
mod joins;
mod paths;
mod queries;
mod request;

use case_lines::{Fields, Output, answer_lines};
use request::ReachRequest;
use std::alloc::Global;
use std::random::RandomSource;
use std::thread::Threads;

/// Answers one request.
fn answer<R: RandomSource + Threads + Sync>(
    rt: &R,
    alloc: Global,
    out: &mut Output,
    request: ReachRequest,
    fields: Fields,
) -> anyhow::Result<()> {
    match request {
        ReachRequest::Read => expressions::answer_read(alloc, out, fields),
        ReachRequest::File => queries::answer_file(alloc, out, fields),
        ReachRequest::Joins => joins::answer_joins(alloc, out, fields),
        ReachRequest::Marks => paths::answer_marks(rt, alloc, out, fields),
        ReachRequest::Shown => paths::answer_shown(alloc, out, fields),
        ReachRequest::Both => feeds::answer_both(rt, alloc, out, fields),
        ReachRequest::Bindings => bindings::answer_bindings(rt, alloc, out, fields),
        ReachRequest::Cut => paths::answer_cut(alloc, out, fields),
    }
}

/// Answers the request of this keyword, if there is one. Whether there is.
fn answer_keyword<R: RandomSource + Threads + Sync>(
    rt: &R,
    alloc: Global,
    out: &mut Output,
    keyword: &[u8],
    fields: Fields,
) -> anyhow::Result<bool> {
    match ReachRequest::named(keyword) {
        Some(request) => {
            answer(rt, alloc, out, request, fields)?;
            Ok(true)
        }
        None => Ok(false),
    }
}

fn main(rt: HostRuntime) -> anyhow::Result<()> {
    let alloc = rt.alloc();
    answer_lines(&rt, alloc, |out, keyword, fields| {
        answer_keyword(&rt, alloc, out, keyword, fields)
    })
}
