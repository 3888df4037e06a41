//! Queries files with expressions whose labels may be taken backwards.

use case_lines::{Fields, Output, decoded};
use query_file::{Compiled, QueryFault, read_two_way_queries};
use rpq_model::QueryDef;
use std::alloc::Global;

/// The queries of a queries file, each with its automaton's states and labels, or the first fault.
pub fn answer_file(alloc: Global, out: &mut Output, fields: Fields) -> anyhow::Result<()> {
    match read_two_way_queries(alloc, &decoded(alloc, fields.rest())?) {
        Ok(queries) => {
            for query in &queries {
                put_query(out, query)?;
                out.put("|")?;
            }
            Ok(())
        }
        Err(fault) => out.put_bytes(fault.to_string(alloc)?.as_bytes()),
    }
}

fn put_query(out: &mut Output, query: &Compiled) -> anyhow::Result<()> {
    out.put_bytes(query.def.name.as_bytes())?;
    out.put(" ")?;
    out.put_shown(&query.dfa.states())?;
    for label in query.dfa.labels() {
        out.put(if label.back { " ^" } else { " " })?;
        out.put_bytes(label.name.as_bytes())?;
    }
    Ok(())
}

/// The queries of a queries file. A faulty file has none.
pub fn queries_of(alloc: Global, text: &[u8]) -> anyhow::Result<Vec<QueryDef>> {
    let mut queries = Vec::new(alloc);
    let Ok(compiled) = read_two_way_queries(alloc, &decoded(alloc, text)?) else {
        return Ok(queries);
    };
    for query in &compiled {
        queries.push(query.def.copy(alloc)?)?;
    }
    Ok(queries)
}
