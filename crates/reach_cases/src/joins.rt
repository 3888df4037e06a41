//! Joins files.

use crate::queries::queries_of;
use anyhow::ensure;
use case_lines::{Fields, Output, decoded};
use join_file::{JoinDef, Term, read_joins};
use std::alloc::Global;

/// The joins of a joins file, or the first fault.
pub fn answer_joins(alloc: Global, out: &mut Output, mut fields: Fields) -> anyhow::Result<()> {
    let queries = queries_of(alloc, fields.next())?;
    ensure!(queries.len() <= 64, "too many queries");
    match read_joins(alloc, &decoded(alloc, fields.rest())?, &queries) {
        Ok(joins) => {
            for join in &joins {
                put_join(out, join)?;
                out.put("|")?;
            }
            Ok(())
        }
        Err(fault) => out.put_bytes(fault.to_string(alloc)?.as_bytes()),
    }
}

fn put_join(out: &mut Output, join: &JoinDef) -> anyhow::Result<()> {
    out.put_bytes(join.name.as_bytes())?;
    out.put(" ")?;
    out.put_shown(&join.variables)?;
    for atom in &join.atoms {
        out.put(" ")?;
        out.put_shown(&atom.query)?;
        out.put(":")?;
        put_term(out, &atom.from)?;
        out.put(">")?;
        put_term(out, &atom.to)?;
    }
    Ok(())
}

fn put_term(out: &mut Output, term: &Term) -> anyhow::Result<()> {
    match term {
        Term::Variable(number) => {
            out.put("?")?;
            out.put_shown(number)
        }
        Term::Vertex(name) => out.put_bytes(name.as_bytes()),
    }
}
