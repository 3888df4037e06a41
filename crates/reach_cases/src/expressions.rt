//! Expressions whose labels may be taken backwards.

use case_lines::{Fields, Output, decoded};
use path_syntax::{has_empty_word, occurrences, read_two_way, write_expr};
use std::alloc::Global;

/// The expression of a text as it is written, with its labels counted.
pub fn answer_read(alloc: Global, out: &mut Output, fields: Fields) -> anyhow::Result<()> {
    match read_two_way(alloc, &decoded(alloc, fields.rest())?) {
        Ok(expr) => {
            out.put_bytes(&write_expr(alloc, &expr)?)?;
            out.put(" ")?;
            out.put_shown(&occurrences(&expr))?;
            out.put(" ")?;
            out.put_sign(has_empty_word(&expr))
        }
        Err(fault) => out.put_shown(&fault),
    }
}
