//! The test of containment.

use crate::automata::automaton;
use crate::expressions::read;
use case_lines::{Fields, Output};
use containment_test::{Verdict, contained};
use dfa_table::Dfa;
use rpq_base::{TryClone, Word};
use std::alloc::Global;

/// Whether the language of an expression has the property of containment, or the least three words
/// that show that it hasn't.
pub fn answer_contained(alloc: Global, out: &mut Output, fields: Fields) -> anyhow::Result<()> {
    let expr = read(alloc, fields.rest())?;
    match automaton(alloc, &expr) {
        Ok(dfa) => put_contained(alloc, out, &dfa),
        Err(fault) => out.put_shown(&fault),
    }
}

/// Puts a copy of the verdict on the automaton's language.
fn put_contained(alloc: Global, out: &mut Output, dfa: &Dfa) -> anyhow::Result<()> {
    let verdict = contained(alloc, dfa)?;
    put_copy(out, &verdict)
}

fn put_copy(out: &mut Output, verdict: &Verdict) -> anyhow::Result<()> {
    let copy = verdict.copy()?;
    put_verdict(out, &copy)
}

/// Puts `yes`, or `no` and the three words.
pub fn put_verdict(out: &mut Output, verdict: &Verdict) -> anyhow::Result<()> {
    match verdict {
        Verdict::Yes => out.put("yes"),
        Verdict::No { p, q, w } => put_words(out, p, q, w),
    }
}

fn put_words(out: &mut Output, p: &Word, q: &Word, w: &Word) -> anyhow::Result<()> {
    out.put("no ")?;
    put_word(out, p)?;
    out.put(" ")?;
    put_word(out, q)?;
    out.put(" ")?;
    put_word(out, w)
}

/// Puts the names of the word's labels with `/` between them, and `()` for the empty word.
fn put_word(out: &mut Output, word: &Word) -> anyhow::Result<()> {
    if word.labels.is_empty() {
        return out.put("()");
    }
    for (place, label) in word.labels.iter().enumerate() {
        if place > 0 {
            out.put("/")?;
        }
        out.put_bytes(label.name.as_bytes())?;
    }
    Ok(())
}
