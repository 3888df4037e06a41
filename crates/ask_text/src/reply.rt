//! Replies.

ghost use Rattle.std.specs.Prelude.{◌≡◌, ◌<◌, ◌++◌, length, flat_map, decimal};
ghost use Rattle.std.specs.Prelude.{take, zip, List, IfOk, OnOk};
ghost use Rattle.answer_rows.specs.Answers.{pairs, row_of, sources_of, pair};
ghost use Rattle.answer_rows.specs.Listing.{listed};
ghost use Rattle.answer_view.specs.View.{rows_at, IsViewOf};
ghost use Rattle.rpq_base.specs.declared.data.Entry.{Entry as EntryOf};
ghost use Rattle.ask_text.specs.Ranges.{IsInRange, ended_at};
ghost use Rattle.ask_text.specs.Reply.{name_at, pair_line, target_line, end_line, count_line};
ghost use Rattle.ask_text.specs.Reply.{answers_text, from_text, ends_text, to_text, pair_text};
ghost use Rattle.ask_text.specs.Reply.{yes_or_no, end_text, count_text, stats_text, clock_text};
ghost use Rattle.ask_text.specs.Reply.{wait_text, query_front, vertex_front, told, reply, IsReply};

use crate::ask::Ask;
use answer_rows::{Rows, Target};
use answer_view::View;
use itoa::Buffer;
use rpq_base::{Memory, Name};
use rpq_model::QueryDef;
use std::alloc::{AllocError, Global};
use text_parts::push_decimal;

/// What a reader is told of a view: its position and what is asked for there, each line with a line
/// feed at its end. A wait is ended where the view's position is below its number, and no other ask
/// is. The only error is [`Memory`].
///
/// All pairs of a query cost time and memory for each of them, the targets of a vertex time for
/// each of them and for finding it. The sources of a vertex cost a look-up in the row of each
/// source of the query, since no index leads back, and memory for the text alone. The numbers of
/// pairs cost a step for each query, and the rest a look-up.
#[tactic(auto, unfolding(crate::specs::Reply::reply))]
pub fn reply_text(
    alloc: Global,
    ask: &Ask,
    view: &View,
    queries: &[QueryDef],
    ended: bool,
) -> Result<Vec<u8>, Memory>
    requires view { length view.now.rows ≡ length queries.now }
    requires query { IsInRange (length queries.now) ask.now }
    requires ended { ended ≡ ended_at ask.now view.now.position }
    ensures text { IfOk result (λ text. text.items ≡ reply queries.now view.now ask.now ended) }
    // So it is the reply over every history of whose beginning this is the view.
    ensures reply { IfOk result (λ text. (history : List EntryOf) →
        IsViewOf queries.now (take view.now.position history) view.now →
        IsReply queries.now history view.now.position ask.now ended text.items) }
{
    let mut text = Vec::new(alloc);
    text.extend_from_slice(b"@")?;
    push_decimal(&mut text, view.position())?;
    text.extend_from_slice(b" ")?;
    push_told(&mut text, ask, view, queries, ended)?;
    Ok(text)
}

/// Writes what is told behind the position at the end of the text.
#[tactic(auto, unfolding(crate::specs::Reply::told))]
fn push_told(
    text: &mut Vec<u8>,
    ask: &Ask,
    view: &View,
    queries: &[QueryDef],
    ended: bool,
) -> Result<(), Memory>
    requires view { length view.now.rows ≡ length queries.now }
    requires query { IsInRange (length queries.now) ask.now }
    ensures { OnOk result
        (text.new.items ≡ text.old.items ++ told queries.now view.now ask.now ended) }
{
    match ask {
        Ask::Answers(query) => push_answers(text, name_at(queries, *query), view.rows(*query)),
        Ask::From(query, from) => {
            let row = row_at(view, *query, from);
            push_from(text, name_at(queries, *query), from, row)
        }
        Ask::Pair(query, from, to) => {
            let said = yes_or_no(view.holds(*query, from, to));
            push_pair(text, b"pair", name_at(queries, *query), from, to, said)
        }
        Ask::Count(query) => push_count(text, name_at(queries, *query), view.count(*query)),
        Ask::Wait(number) => push_wait(text, *number, ended),
        Ask::Until(query, from, to) => {
            let mut buffer = Buffer::new();
            let said = end_text(&mut buffer, view.until(*query, from, to));
            push_pair(text, b"until", name_at(queries, *query), from, to, said)
        }
        Ask::Stats => push_stats(text, queries, view.all_rows()),
        Ask::Clock => push_clock(text, view.clock()),
        Ask::Ends(query, from) => {
            let row = row_at(view, *query, from);
            push_ends(text, name_at(queries, *query), from, row)
        }
        Ask::To(query, to) => push_to(text, name_at(queries, *query), to, view.rows(*query)),
    }
}

/// The name of the query with this number, counted from 0.
fn name_at(queries: &[QueryDef], number: u32) -> &[u8]
    requires { number < length queries.now }
    ensures { result.now ≡ name_at queries.now number }
{
    let query = &queries[number as usize];
    query.name.as_bytes()
}

/// The targets of a vertex among the answers of a query.
fn row_at<'a>(view: &'a View, query: u32, from: &Name) -> &'a [Target]
    requires { query < length view.now.rows }
    ensures { result.now ≡ row_of (rows_at view.now query) from.now }
{
    match view.row(query, from) {
        Some(row) => row,
        None => &[],
    }
}

/// Whether a pair is an answer, as it is told.
fn yes_or_no(holds: bool) -> &'static [u8]
    ensures { result.now ≡ yes_or_no holds }
{
    if holds { b"yes" } else { b"no" }
}

/// When a pair ends, as it is told.
fn end_text(buffer: &mut Buffer, until: Option<u64>) -> &[u8]
    ensures { result.now ≡ end_text until }
{
    match until {
        Some(until) => buffer.format(until).as_bytes(),
        None => b"none",
    }
}

/// Writes what is asked and the name of the query at the end of the text.
fn push_front(text: &mut Vec<u8>, word: &[u8], name: &[u8]) -> Result<(), AllocError>
    ensures { OnOk result (text.new.items ≡ text.old.items ++ query_front word.now name.now) }
{
    text.extend_from_slice(word)?;
    text.extend_from_slice(b" ")?;
    text.extend_from_slice(name)?;
    text.extend_from_slice(b" ")
}

/// Writes all answers of a query at the end of the text.
#[tactic(auto, unfolding(crate::specs::Reply::answers_text))]
fn push_answers(text: &mut Vec<u8>, name: &[u8], rows: &Rows) -> Result<(), Memory>
    ensures { OnOk result (text.new.items ≡ text.old.items ++ answers_text name.now rows.now) }
{
    push_front(text, b"answers", name)?;
    push_number(text, rows.count())?;
    text.extend_from_slice(b"\n")?;
    push_pairs(text, rows)
}

/// Writes all pairs at the end of the text, one a line.
fn push_pairs(text: &mut Vec<u8>, rows: &Rows) -> Result<(), Memory>
    ensures { OnOk result (text.new.items ≡ text.old.items ++ flat_map pair_line (pairs rows.now)) }
{
    let list = rows.list()?;
    push_list(text, &list)
}

/// Writes sources with targets at the end of the text, one of them a line.
fn push_list(text: &mut Vec<u8>, list: &[(&Name, &Target)]) -> Result<(), Memory>
    ensures { OnOk result (text.new.items
        ≡ text.old.items ++ flat_map pair_line (pairs (listed list.now))) }
{
    for (from, target) in list {
        push_pair_line(text, from, &target.to)?;
    }
    Ok(())
}

/// Writes a pair at the end of the text, in a line.
fn push_pair_line(text: &mut Vec<u8>, from: &Name, to: &Name) -> Result<(), Memory>
    ensures { OnOk result (text.new.items ≡ text.old.items ++ pair_line (pair from.now to.now)) }
{
    text.extend_from_slice(from.as_bytes())?;
    text.extend_from_slice(b" ")?;
    text.extend_from_slice(to.as_bytes())?;
    text.extend_from_slice(b"\n")?;
    Ok(())
}

/// Writes a word about a vertex at the end of the text, and how many lines follow.
fn push_vertex(
    text: &mut Vec<u8>,
    word: &[u8],
    name: &[u8],
    vertex: &Name,
    count: u128,
) -> Result<(), Memory>
    ensures { OnOk result (text.new.items
        ≡ text.old.items ++ vertex_front word.now name.now vertex.now count) }
{
    push_front(text, word, name)?;
    text.extend_from_slice(vertex.as_bytes())?;
    text.extend_from_slice(b" ")?;
    push_number(text, count)?;
    text.extend_from_slice(b"\n")?;
    Ok(())
}

/// Writes the targets of a vertex at the end of the text.
#[tactic(auto, unfolding(crate::specs::Reply::from_text))]
fn push_from(text: &mut Vec<u8>, name: &[u8], from: &Name, row: &[Target]) -> Result<(), Memory>
    ensures { OnOk result (text.new.items ≡ text.old.items ++ from_text name.now from.now row.now) }
{
    push_vertex(text, b"from", name, from, row.len() as u128)?;
    push_targets(text, row)
}

/// Writes targets at the end of the text, one a line.
fn push_targets(text: &mut Vec<u8>, row: &[Target]) -> Result<(), Memory>
    ensures { OnOk result (text.new.items ≡ text.old.items ++ flat_map target_line row.now) }
{
    for target in row {
        push_target_line(text, target)?;
    }
    Ok(())
}

/// Writes a target at the end of the text, in a line.
fn push_target_line(text: &mut Vec<u8>, target: &Target) -> Result<(), Memory>
    ensures { OnOk result (text.new.items ≡ text.old.items ++ target_line target.now) }
{
    text.extend_from_slice(target.to.as_bytes())?;
    text.extend_from_slice(b"\n")?;
    Ok(())
}

/// Writes the targets of a vertex at the end of the text, each with the end of its pair.
#[tactic(auto, unfolding(crate::specs::Reply::ends_text))]
fn push_ends(text: &mut Vec<u8>, name: &[u8], from: &Name, row: &[Target]) -> Result<(), Memory>
    ensures { OnOk result (text.new.items ≡ text.old.items ++ ends_text name.now from.now row.now) }
{
    push_vertex(text, b"ends", name, from, row.len() as u128)?;
    push_end_lines(text, row)
}

/// Writes targets with the ends of their pairs at the end of the text, one a line.
fn push_end_lines(text: &mut Vec<u8>, row: &[Target]) -> Result<(), Memory>
    ensures { OnOk result (text.new.items ≡ text.old.items ++ flat_map end_line row.now) }
{
    for target in row {
        push_end_line(text, target)?;
    }
    Ok(())
}

/// Writes a target with the end of its pair at the end of the text, in a line.
fn push_end_line(text: &mut Vec<u8>, target: &Target) -> Result<(), Memory>
    ensures { OnOk result (text.new.items ≡ text.old.items ++ end_line target.now) }
{
    text.extend_from_slice(target.to.as_bytes())?;
    text.extend_from_slice(b" ")?;
    push_decimal(text, target.until)?;
    text.extend_from_slice(b"\n")?;
    Ok(())
}

/// Writes the sources of a vertex at the end of the text.
#[tactic(auto, unfolding(crate::specs::Reply::to_text))]
fn push_to(text: &mut Vec<u8>, name: &[u8], to: &Name, rows: &Rows) -> Result<(), Memory>
    ensures { OnOk result (text.new.items
        ≡ text.old.items ++ to_text name.now to.now (sources_of rows.now to.now)) }
{
    push_vertex(text, b"to", name, to, rows.count_sources(to))?;
    rows.push_sources(to, text)
}

/// Writes a word about the pair of two vertices at the end of the text.
#[tactic(auto, unfolding(crate::specs::Reply::pair_text))]
fn push_pair(
    text: &mut Vec<u8>,
    word: &[u8],
    name: &[u8],
    from: &Name,
    to: &Name,
    said: &[u8],
) -> Result<(), Memory>
    ensures { OnOk result (text.new.items
        ≡ text.old.items ++ pair_text word.now name.now from.now to.now said.now) }
{
    push_front(text, word, name)?;
    text.extend_from_slice(from.as_bytes())?;
    text.extend_from_slice(b" ")?;
    text.extend_from_slice(to.as_bytes())?;
    text.extend_from_slice(b" ")?;
    text.extend_from_slice(said)?;
    text.extend_from_slice(b"\n")?;
    Ok(())
}

/// Writes the number of answers of a query at the end of the text.
#[tactic(auto, unfolding(crate::specs::Reply::count_text))]
fn push_count(text: &mut Vec<u8>, name: &[u8], count: u128) -> Result<(), Memory>
    ensures { OnOk result (text.new.items ≡ text.old.items ++ count_text name.now count) }
{
    push_front(text, b"count", name)?;
    push_number(text, count)?;
    text.extend_from_slice(b"\n")?;
    Ok(())
}

/// Writes the number of answers of each query at the end of the text.
#[tactic(auto, unfolding(crate::specs::Reply::stats_text))]
fn push_stats(text: &mut Vec<u8>, queries: &[QueryDef], all: &[Rows]) -> Result<(), Memory>
    requires { length all.now ≡ length queries.now }
    ensures { OnOk result (text.new.items ≡ text.old.items ++ stats_text queries.now all.now) }
{
    text.extend_from_slice(b"stats ")?;
    push_number(text, queries.len() as u128)?;
    text.extend_from_slice(b"\n")?;
    push_counts(text, queries, all)
}

/// Writes each query with the number of its answers at the end of the text, one a line.
fn push_counts(text: &mut Vec<u8>, queries: &[QueryDef], all: &[Rows]) -> Result<(), Memory>
    requires { length all.now ≡ length queries.now }
    ensures { OnOk result (text.new.items ≡ text.old.items
        ++ flat_map (λ each. count_line each.0.name (length each.1)) (zip queries.now all.now)) }
{
    for number in 0..queries.len() {
        let query = &queries[number];
        let rows = &all[number];
        push_count_line(text, query.name.as_bytes(), rows.count())?;
    }
    Ok(())
}

/// Writes a query with the number of its answers at the end of the text, in a line.
fn push_count_line(text: &mut Vec<u8>, name: &[u8], count: u128) -> Result<(), Memory>
    ensures { OnOk result (text.new.items ≡ text.old.items ++ count_line name.now count) }
{
    text.extend_from_slice(name)?;
    text.extend_from_slice(b" ")?;
    push_number(text, count)?;
    text.extend_from_slice(b"\n")?;
    Ok(())
}

/// Writes the clock at the end of the text.
#[tactic(auto, unfolding(crate::specs::Reply::clock_text))]
fn push_clock(text: &mut Vec<u8>, clock: u64) -> Result<(), Memory>
    ensures { OnOk result (text.new.items ≡ text.old.items ++ clock_text clock) }
{
    text.extend_from_slice(b"clock ")?;
    push_decimal(text, clock)?;
    text.extend_from_slice(b"\n")?;
    Ok(())
}

/// Writes at the end of the text that a position was waited for, or that it can't come.
#[tactic(auto, unfolding(crate::specs::Reply::wait_text))]
fn push_wait(text: &mut Vec<u8>, number: u64, ended: bool) -> Result<(), Memory>
    ensures { OnOk result (text.new.items ≡ text.old.items ++ wait_text number ended) }
{
    text.extend_from_slice(b"wait ")?;
    push_decimal(text, number)?;
    let more: &[u8] = if ended { b" ended" } else { b"" };
    text.extend_from_slice(more)?;
    text.extend_from_slice(b"\n")?;
    Ok(())
}

/// Writes a number in decimal at the end of the text.
fn push_number(text: &mut Vec<u8>, number: u128) -> Result<(), AllocError>
    ensures { OnOk result (text.new.items ≡ text.old.items ++ decimal number) }
{
    text.extend_from_slice(Buffer::new().format(number).as_bytes())
}
