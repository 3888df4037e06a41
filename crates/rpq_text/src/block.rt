//! The text of an entry and what it brings, and that of several.

ghost use Rattle.std.specs.Prelude.{◌≡◌, ◌<◌, ◌≤◌, ◌+◌, ◌*◌, ◌^◌, ◌++◌, [], length, take, drop};
ghost use Rattle.std.specs.Prelude.{flat_map, codes, decimal, OnOk, IfOk, All};
ghost use Rattle.rpq_base.specs.Plain.{IsPlain};
ghost use Rattle.ask_text.specs.Reply.{name_at};
ghost use Rattle.rpq_text.specs.Definitions.{definitions_of};
ghost use Rattle.rpq_text.specs.Text.{event_line, event_lines, entry_line, block, blocks_from};
ghost use Rattle.rpq_text.specs.Text.{event_of, shown_line};

use end_events::{EntryEvents, EventRef};
use entry_steps::Step;
use path_witness::ShownPath;
use query_file::Compiled;
use rpq_base::{Entry, Memory};
use rpq_model::QueryDef;
use std::alloc::{AllocError, Global};
use text_parts::push_decimal;
use tuple_text::push_tuple;

/// The most bytes of room that an emptied text keeps.
const KEPT_ROOM: usize = 1 << 20;

/// The block of the entry at position `n`, counted from 1: the line of the entry, then one line for
/// each of its events, and behind that of an addition one for the path that shows it, if there is
/// one, each with a line feed at its end; and last the lines of the joins. Each event has the
/// number of one of the queries, counted from 0, and the entry's label points forwards. The only
/// error is [`Memory`].
pub fn block_text(
    alloc: Global,
    n: u64,
    entry: &Entry,
    step: &Step<'_>,
    queries: &[Compiled],
) -> Result<Vec<u8>, Memory>
    requires plain { IsPlain entry.now }
    requires numbers { All (λ event. event.query < length queries.now) step.now.events }
    ensures { IfOk result (λ text.
        text.items ≡ block (definitions_of queries.now) n entry.now step.now) }
{
    let mut text = Vec::new(alloc);
    make_block(&mut text, n, entry, step, queries)?;
    Ok(text)
}

/// Makes the text the block of the entry at position `n`, as [`block_text`] does, in place of what
/// it was. So one text serves for block after block and keeps its room, up to a mebibyte. The only
/// error is [`Memory`].
pub fn make_block(
    text: &mut Vec<u8>,
    n: u64,
    entry: &Entry,
    step: &Step<'_>,
    queries: &[Compiled],
) -> Result<(), Memory>
    requires plain { IsPlain entry.now }
    requires numbers { All (λ event. event.query < length queries.now) step.now.events }
    ensures { OnOk result
        (text.new.items ≡ block (definitions_of queries.now) n entry.now step.now) }
{
    empty(text);
    push_block(text, n, entry, step, queries)
}

/// Makes the text the blocks of these entries, in place of what it was, each with the step in the
/// entry's place. The first entry is at position `n`, counted from 1. The text keeps its room as
/// that of [`make_block`] does. The only error is [`Memory`].
pub fn make_blocks(
    text: &mut Vec<u8>,
    n: u64,
    entries: &[Entry],
    steps: &[Step<'_>],
    queries: &[Compiled],
) -> Result<(), Memory>
    requires plain { All IsPlain entries.now }
    requires numbers { All (λ step. All (λ event. event.query < length queries.now) step.events)
        steps.now }
    requires as_many { length steps.now ≡ length entries.now }
    requires short { n + length entries.now < 2 ^ 64 }
    ensures { OnOk result (text.new.items
        ≡ blocks_from (definitions_of queries.now) n entries.now steps.now) }
{
    empty(text);
    for (i, entry) in entries.iter().enumerate() {
        push_block(text, n + i as u64, entry, &steps[i], queries)?;
    }
    Ok(())
}

/// Writes the block of the entry at position `n` at the end of the text.
#[tactic(auto, unfolding(crate::specs::Text::block))]
fn push_block(
    text: &mut Vec<u8>,
    n: u64,
    entry: &Entry,
    step: &Step<'_>,
    queries: &[Compiled],
) -> Result<(), Memory>
    requires plain { IsPlain entry.now }
    requires numbers { All (λ event. event.query < length queries.now) step.now.events }
    ensures { OnOk result (text.new.items
        ≡ text.old.items ++ block (definitions_of queries.now) n entry.now step.now) }
{
    text.reserve(room_for(step.events.len().saturating_add(step.shown.len())))?;
    push_entry(text, n, entry)?;
    push_events(text, queries, &step.events, &step.shown)?;
    text.extend_from_slice(&step.joined)?;
    Ok(())
}

/// Empties the text, and gives back what room it has above that which is kept.
fn empty(text: &mut Vec<u8>)
    ensures { text.new.items ≡ [] }
{
    text.clear();
    if text.capacity() > KEPT_ROOM {
        text.shrink_to(KEPT_ROOM);
    }
}

/// Room for a block with so many more lines whose names are short, and never more: what is asked for
/// grows with the lines and not faster. A longer block takes more later.
fn room_for(lines: usize) -> usize
    ensures { result ≤ 32 * lines + 128 }
{
    lines.saturating_mul(32).saturating_add(128)
}

/// Writes the line of the entry at position `n` at the end of the text.
fn push_entry(text: &mut Vec<u8>, n: u64, entry: &Entry) -> Result<(), Memory>
    requires { IsPlain entry.now }
    ensures { OnOk result (text.new.items ≡ text.old.items ++ entry_line n entry.now) }
{
    text.push(b'@')?;
    push_decimal(text, n)?;
    text.push(b' ')?;
    push_decimal(text, u64::from(entry.stream))?;
    text.push(b' ')?;
    push_tuple(text, &entry.tuple)?;
    text.push(b'\n')?;
    Ok(())
}

/// Writes the lines of events, and behind that of each addition the line of the next path, if there
/// is one, at the end of the text.
fn push_events(
    text: &mut Vec<u8>,
    queries: &[Compiled],
    events: &EntryEvents<'_>,
    shown: &[ShownPath],
) -> Result<(), Memory>
    requires { All (λ event. event.query < length queries.now) events.now }
    ensures { OnOk result (text.new.items
        ≡ text.old.items ++ event_lines (definitions_of queries.now) events.now shown.now) }
{
    let mut rest = shown;
    for place in 0..events.len() {
        let event = events.at(place);
        push_event(text, queries, &event)?;
        if event.added {
            rest = push_next(text, rest)?;
        }
    }
    Ok(())
}

/// Writes the line of the first path, if there is one, at the end of the text, and answers the
/// others.
fn push_next<'a>(text: &mut Vec<u8>, shown: &'a [ShownPath]) -> Result<&'a [ShownPath], Memory>
    ensures line { OnOk result
        (text.new.items ≡ text.old.items ++ flat_map shown_line (take 1 shown.now)) }
    ensures rest { IfOk result (λ rest. rest.now ≡ drop 1 shown.now) }
{
    let [first, rest @ ..] = shown else {
        return Ok(shown);
    };
    push_shown(text, first)?;
    Ok(rest)
}

/// Writes the line of a path that shows an answer at the end of the text.
fn push_shown(text: &mut Vec<u8>, shown: &ShownPath) -> Result<(), Memory>
    ensures { OnOk result (text.new.items ≡ text.old.items ++ shown_line shown.now) }
{
    text.extend_from_slice(b"= ")?;
    push_decimal(text, shown.until)?;
    push_positions(text, &shown.positions)?;
    text.push(b'\n')?;
    Ok(())
}

/// Writes the positions at the end of the text, each behind a space.
fn push_positions(text: &mut Vec<u8>, positions: &[u64]) -> Result<(), Memory>
    ensures { OnOk result (text.new.items ≡ text.old.items
        ++ flat_map (λ position. codes " " ++ decimal position) positions.now) }
{
    for position in positions {
        text.push(b' ')?;
        push_decimal(text, *position)?;
    }
    Ok(())
}

/// Writes the line of an event of one of the queries at the end of the text.
fn push_event(
    text: &mut Vec<u8>,
    queries: &[Compiled],
    event: &EventRef<'_>,
) -> Result<(), AllocError>
    requires { event.now.query < length queries.now }
    ensures { OnOk result (text.new.items ≡ text.old.items
        ++ event_line (definitions_of queries.now) (event_of event.now)) }
{
    let sign = if event.added { b"+ " } else { b"- " };
    text.extend_from_slice(sign)?;
    text.extend_from_slice(name_at(queries, event.query))?;
    text.push(b' ')?;
    text.extend_from_slice(event.from.as_bytes())?;
    text.push(b' ')?;
    text.extend_from_slice(event.to.as_bytes())?;
    text.push(b'\n')?;
    Ok(())
}

/// The name of the query with this number, counted from 0.
fn name_at(queries: &[Compiled], number: u32) -> &[u8]
    requires { number < length queries.now }
    ensures { result.now ≡ name_at (definitions_of queries.now) number }
{
    let query = &queries[number as usize];
    name_of(&query.def)
}

/// The name of a query.
pub fn name_of(query: &QueryDef) -> &[u8]
    ensures { result.now ≡ query.now.name }
{
    query.name.as_bytes()
}
