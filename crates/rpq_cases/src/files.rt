//! Queries files.

ghost use Rattle.std.specs.Prelude.{◌<◌, ◌+◌, ◌^◌, length};

use crate::automata::put_automaton;
use crate::containment::put_verdict;
use case_lines::{Fields, Output, decoded};
use query_file::{Compiled, QueryFault, read_queries};
use rpq_model::{Mode, QueryDef};
use std::alloc::Global;

/// The queries of a queries file, each with its automaton and its verdict, or the first fault.
pub fn answer_file(alloc: Global, out: &mut Output, fields: Fields) -> anyhow::Result<()> {
    let text = decoded(alloc, fields.rest())?;
    match queries_of(alloc, &text) {
        Ok(queries) => put_queries(out, &queries),
        Err(fault) => put_fault(alloc, out, &fault),
    }
}

/// The queries of a file. It promises nothing, since what is put is compared from outside.
fn queries_of(alloc: Global, text: &[u8]) -> Result<Vec<Compiled>, QueryFault>
    requires { length text.now < 2 ^ 24 + 1 }
{
    read_queries(alloc, text)
}

fn put_fault(alloc: Global, out: &mut Output, fault: &QueryFault) -> anyhow::Result<()> {
    let text = fault.to_string(alloc)?;
    out.put_bytes(text.as_bytes())
}

fn put_queries(out: &mut Output, queries: &[Compiled]) -> anyhow::Result<()> {
    for query in queries {
        put_query(out, query)?;
        out.put("|")?;
    }
    Ok(())
}

fn put_query(out: &mut Output, query: &Compiled) -> anyhow::Result<()> {
    put_def(out, &query.def)?;
    put_automaton(out, &query.dfa)?;
    out.put(" ")?;
    put_verdict(out, &query.verdict)
}

/// Puts the name, the window and the mode.
fn put_def(out: &mut Output, def: &QueryDef) -> anyhow::Result<()> {
    out.put_bytes(def.name.as_bytes())?;
    out.put(" ")?;
    out.put_shown(&def.window.size)?;
    out.put(" ")?;
    out.put_shown(&def.window.slide)?;
    out.put(match def.mode {
        Mode::Arbitrary => " arbitrary ",
        Mode::Simple => " simple ",
    })
}
