//! Automata in full, and words by the matcher and by the automaton.

ghost use Rattle.std.specs.Prelude.{◌<◌, ◌^◌, length, IfSome};
ghost use Rattle.path_syntax.specs.Expression.{expression};
ghost use Rattle.path_syntax.specs.Size.{nodes};

use crate::expressions::{read, word_of};
use case_lines::{Fields, Output, parts};
use dfa_build::{BuildFault, Positions, positions, subset};
use dfa_table::Dfa;
use path_syntax::{Expr, accepts};
use rpq_base::Label;
use std::alloc::Global;

/// The position automaton of an expression.
pub fn answer_positions(alloc: Global, out: &mut Output, fields: Fields) -> anyhow::Result<()> {
    let expr = read(alloc, fields.rest())?;
    match positions(alloc, &expr) {
        Ok(positions) => put_positions(out, &positions),
        Err(fault) => out.put_shown(&fault),
    }
}

fn put_positions(out: &mut Output, positions: &Positions) -> anyhow::Result<()> {
    out.put("labels")?;
    put_labels(out, &positions.atoms)?;
    out.put(" first")?;
    out.put_numbers(&positions.first)?;
    out.put(" last")?;
    out.put_numbers(&positions.last)?;
    out.put(" follow")?;
    put_follow(out, &positions.follow)
}

fn put_follow(out: &mut Output, rows: &[Vec<u32>]) -> anyhow::Result<()> {
    for row in rows {
        out.put_numbers(row)?;
        out.put(";")?;
    }
    Ok(())
}

fn put_labels(out: &mut Output, labels: &[Label]) -> anyhow::Result<()> {
    for label in labels {
        out.put(" ")?;
        out.put_bytes(label.name.as_bytes())?;
    }
    Ok(())
}

/// The deterministic automaton of the expression.
pub fn automaton(alloc: Global, expr: &Expr) -> Result<Dfa, BuildFault>
    requires { nodes (expression expr.now) < 2 ^ 32 }
{
    subset(alloc, &positions(alloc, expr)?)
}

/// The deterministic automaton of an expression.
pub fn answer_automaton(alloc: Global, out: &mut Output, fields: Fields) -> anyhow::Result<()> {
    let expr = read(alloc, fields.rest())?;
    match automaton(alloc, &expr) {
        Ok(dfa) => put_automaton(out, &dfa),
        Err(fault) => out.put_shown(&fault),
    }
}

pub fn put_automaton(out: &mut Output, dfa: &Dfa) -> anyhow::Result<()> {
    out.put("labels")?;
    put_labels(out, dfa.labels())?;
    out.put(" rows")?;
    put_rows(out, dfa)?;
    out.put(" finals ")?;
    put_finals(out, dfa)
}

fn put_rows(out: &mut Output, dfa: &Dfa) -> anyhow::Result<()> {
    for state in 0..dfa.states() {
        put_row(out, dfa, state)?;
    }
    Ok(())
}

fn put_row(out: &mut Output, dfa: &Dfa, state: u32) -> anyhow::Result<()>
    requires { state < length dfa.now.rows }
{
    for label in 0..dfa.labels().len() as u32 {
        out.put(" ")?;
        put_step(out, dfa.step(state, label))?;
    }
    out.put(";")
}

fn put_step(out: &mut Output, step: Option<u32>) -> anyhow::Result<()> {
    match step {
        Some(next) => out.put_shown(&next),
        None => out.put("-"),
    }
}

fn put_finals(out: &mut Output, dfa: &Dfa) -> anyhow::Result<()> {
    for state in 0..dfa.states() {
        out.put_sign(dfa.is_final(state))?;
    }
    Ok(())
}

/// Words by the matcher and by the automaton of an expression.
pub fn answer_words(alloc: Global, out: &mut Output, mut fields: Fields) -> anyhow::Result<()> {
    let expr = read(alloc, fields.next())?;
    let words = parts(alloc, fields.rest(), b';')?;
    put_words(alloc, out, &expr, &words)
}

/// Puts for each word whether the matcher takes it, and then whether the automaton does.
fn put_words(alloc: Global, out: &mut Output, expr: &Expr, words: &[&[u8]]) -> anyhow::Result<()>
    requires { nodes (expression expr.now) < 2 ^ 32 }
{
    put_matched(alloc, out, expr, words)?;
    out.put(" ")?;
    match automaton(alloc, expr) {
        Ok(dfa) => put_accepted(alloc, out, &dfa, words),
        Err(fault) => out.put_shown(&fault),
    }
}

/// Puts for each word whether the matcher takes it.
fn put_matched(
    alloc: Global,
    out: &mut Output,
    expr: &Expr,
    words: &[&[u8]],
) -> anyhow::Result<()> {
    for word in words {
        out.put_sign(is_matched(alloc, expr, word)?)?;
    }
    Ok(())
}

fn is_matched(alloc: Global, expr: &Expr, word: &[u8]) -> anyhow::Result<bool> {
    let word = word_of(alloc, word)?;
    Ok(accepts(alloc, expr, &word)?)
}

/// Puts for each word whether the automaton takes it.
fn put_accepted(alloc: Global, out: &mut Output, dfa: &Dfa, words: &[&[u8]]) -> anyhow::Result<()> {
    for word in words {
        out.put_sign(is_accepted(alloc, dfa, word)?)?;
    }
    Ok(())
}

fn is_accepted(alloc: Global, dfa: &Dfa, word: &[u8]) -> anyhow::Result<bool> {
    let word = word_of(alloc, word)?;
    Ok(dfa.states() > 0 && leads_to_final(dfa, 0, &word))
}

/// Whether the word leads from the state to a final one.
fn leads_to_final(dfa: &Dfa, state: u32, word: &[Label]) -> bool
    requires { state < length dfa.now.rows }
{
    match word {
        [] => dfa.is_final(state),
        [label, rest @ ..] => match step(dfa, state, label) {
            Some(next) => leads_to_final(dfa, next, rest),
            None => false,
        },
    }
}

/// The state after a step with the label.
fn step(dfa: &Dfa, state: u32, label: &Label) -> Option<u32>
    requires { state < length dfa.now.rows }
    ensures { IfSome result (λ next. next < length dfa.now.rows) }
{
    dfa.step(state, dfa.label_number(label)?)
}
