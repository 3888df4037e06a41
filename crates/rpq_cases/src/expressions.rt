//! Expressions: read, written and copied; words as they are written.

ghost use Rattle.std.specs.Prelude.{◌<◌, ◌^◌, IfOk};
ghost use Rattle.path_syntax.specs.Expression.{expression};
ghost use Rattle.path_syntax.specs.Size.{nodes};

use crate::texts::name_of;
use case_lines::{Fields, Output, decoded, parts};
use path_syntax::{BadExpr, Expr, has_empty_word, occurrences, read_expr, write_expr, write_word};
use rpq_base::{Label, TryClone, Word};
use std::alloc::Global;

/// The expression of a text.
pub fn read(alloc: Global, text: &[u8]) -> Result<Expr, BadExpr>
    ensures { IfOk result (λ expr. nodes (expression expr) < 2 ^ 32) }
{
    read_expr(alloc, &decoded(alloc, text)?)
}

/// The expression of a text as it is written, with its labels counted.
pub fn answer_read(alloc: Global, out: &mut Output, fields: Fields) -> anyhow::Result<()> {
    match read(alloc, fields.rest()) {
        Ok(expr) => put_counted(alloc, out, &expr),
        Err(fault) => out.put_shown(&fault),
    }
}

/// Puts the expression as it is written, its labels' number, and whether it has the empty word.
fn put_counted(alloc: Global, out: &mut Output, expr: &Expr) -> anyhow::Result<()>
    requires { nodes (expression expr.now) < 2 ^ 32 }
{
    put_written(alloc, out, expr)?;
    out.put(" ")?;
    out.put_shown(&occurrences(expr))?;
    out.put(" ")?;
    out.put_sign(has_empty_word(expr))
}

fn put_written(alloc: Global, out: &mut Output, expr: &Expr) -> anyhow::Result<()> {
    let text = write_expr(alloc, expr)?;
    out.put_bytes(&text)
}

/// A copy of an expression as it is written.
pub fn answer_copy(alloc: Global, out: &mut Output, fields: Fields) -> anyhow::Result<()> {
    let expr = read(alloc, fields.rest())?;
    put_copy(alloc, out, &expr)
}

fn put_copy(alloc: Global, out: &mut Output, expr: &Expr) -> anyhow::Result<()> {
    let copy = expr.copy(alloc)?;
    put_written(alloc, out, &copy)
}

/// The label that a part of a request names.
fn label_of(alloc: Global, part: &[u8]) -> anyhow::Result<Label> {
    let name = name_of(alloc, part)?;
    Ok(Label { name, back: false })
}

/// The word that a part of a request stands for.
pub fn word_of(alloc: Global, part: &[u8]) -> anyhow::Result<Vec<Label>> {
    let mut word = Vec::new(alloc);
    if part.is_empty() {
        return Ok(word);
    }
    for name in &parts(alloc, part, b'/')? {
        word.push(label_of(alloc, name)?)?;
    }
    Ok(word)
}

/// A word as it is written.
pub fn answer_word(alloc: Global, out: &mut Output, fields: Fields) -> anyhow::Result<()> {
    let labels = word_of(alloc, fields.rest())?;
    put_word_copy(alloc, out, &Word { labels })
}

/// Puts a copy of the word.
fn put_word_copy(alloc: Global, out: &mut Output, word: &Word) -> anyhow::Result<()> {
    let copy = word.copy()?;
    let text = write_word(alloc, &copy.labels)?;
    out.put_bytes(&text)
}
