//! The text of the summary.

ghost use Rattle.std.specs.Prelude.{◌≡◌, ◌≤◌, ◌<◌, ◌++◌, length, map, IfOk, OnOk};
ghost use Rattle.standing.specs.Circles.{as_seen};
ghost use Rattle.generated_run.specs.Generates.{said_by};
ghost use Rattle.generated_run.specs.Summary.{number_line, query_line, query_lines, said_lines};
ghost use Rattle.generated_run.specs.Summary.{total_lines, summary_text};

use crate::totals::Totals;
use answer_view::View;
use itoa::Buffer;
use query_file::Compiled;
use rpq_base::Memory;
use standing::{Circle, Standing};
use std::alloc::{AllocError, Global};

/// The text of a summary: the totals, how many answers each query has in the view, and what each
/// object says, those that stayed first. The only error is [`Memory`].
pub fn summary_text<O: Standing>(
    alloc: Global,
    totals: &Totals,
    queries: &[Compiled],
    view: &View,
    circle: &Circle<O>,
) -> Result<Vec<u8>, Memory>
    requires few { length queries.now ≤ 64 }
    requires view { length view.now.rows ≡ length queries.now }
    ensures { IfOk result (λ text. text.items
        ≡ summary_text totals.now.entries totals.now.added totals.now.retracted
        (map (λ each. each.def) queries.now) (map (λ own. length own) view.now.rows)
        (said_by (as_seen O.seen circle.now))) }
{
    let mut text = Vec::new(alloc);
    push_totals(&mut text, totals)?;
    push_queries(&mut text, queries, view)?;
    push_said(&mut text, circle.members())?;
    push_said(&mut text, circle.left())?;
    Ok(text)
}

/// Writes the lines of the totals at the end of the text.
#[tactic(auto, unfolding(crate::specs::Summary::total_lines))]
fn push_totals(text: &mut Vec<u8>, totals: &Totals) -> Result<(), AllocError>
    ensures { OnOk result (text.new.items ≡ text.old.items
        ++ total_lines totals.now.entries totals.now.added totals.now.retracted) }
{
    push_number(text, b"entries ", totals.entries as u128)?;
    push_number(text, b"added ", totals.added)?;
    push_number(text, b"retracted ", totals.retracted)
}

/// Writes the line of each query at the end of the text.
fn push_queries(text: &mut Vec<u8>, queries: &[Compiled], view: &View) -> Result<(), AllocError>
    requires few { length queries.now ≤ 64 }
    requires view { length view.now.rows ≡ length queries.now }
    ensures { OnOk result (text.new.items ≡ text.old.items
        ++ query_lines (map (λ each. each.def) queries.now)
        (map (λ own. length own) view.now.rows)) }
{
    for (i, query) in queries.iter().enumerate() {
        push_query(text, query, view.count(i as u32))?;
    }
    Ok(())
}

/// Writes the line of a query with so many answers at the end of the text.
#[tactic(auto, unfolding(crate::specs::Summary::query_line))]
fn push_query(text: &mut Vec<u8>, query: &Compiled, answers: u128) -> Result<(), AllocError>
    ensures { OnOk result
        (text.new.items ≡ text.old.items ++ query_line query.now.def answers) }
{
    text.extend_from_slice(b"query ")?;
    text.extend_from_slice(query.def.name.as_bytes())?;
    push_number(text, b" ", answers)
}

/// Writes what each of the objects says at the end of the text, each with a line feed.
fn push_said<O: Standing>(text: &mut Vec<u8>, objects: &[O]) -> Result<(), Memory>
    ensures { OnOk result (text.new.items ≡ text.old.items
        ++ said_lines (map (λ object. object.said) (map O.seen objects.now))) }
{
    for object in objects {
        text.extend_from_slice(&object.say()?)?;
        text.extend_from_slice(b"\n")?;
    }
    Ok(())
}

/// Writes a line that ends with a number at the end of the text.
fn push_number(text: &mut Vec<u8>, front: &[u8], number: u128) -> Result<(), AllocError>
    ensures { OnOk result
        (text.new.items ≡ text.old.items ++ number_line front.now number) }
{
    text.extend_from_slice(front)?;
    text.extend_from_slice(Buffer::new().format(number).as_bytes())?;
    text.extend_from_slice(b"\n")
}
