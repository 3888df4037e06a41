//! The items of a reader, one after another.

ghost use Rattle.std.specs.Prelude.{◌≡◌, ◌≤◌, ◌∷◌, [], length, map, Ok, Err, IfOk, IfErr};
ghost use Rattle.std.specs.Prelude.{IfSome, bytes_eq, codes};
ghost use Rattle.rpq_io.specs.Counts.{CountsFault};
ghost use Rattle.text_items.specs.Limits.{most_bytes};
ghost use Rattle.text_items.specs.Reading.{EndsLine};
ghost use Rattle.text_items.specs.Progress.{IsTextReader, ReadsOn};
ghost use Rattle.live_asks.specs.Items.{asking, line_asks, fields_ask, ends_reader, IsItemInRange};
ghost use Rattle.live_asks.specs.Progress.{end_of, EndsAsks};

use crate::ends::ReaderEnd;
use crate::item::ReaderItem;
use ask_text::{AskFault, AskKind, is_ask_line, read_ask};
use rpq_io::{LineReader, Source};
use rpq_model::QueryDef;
use std::alloc::Global;
use text_items::{LineItems, TextEnd, next_item};
use text_parts::fields;

/// What the lines of a reader give, whose asks may name these queries.
#[derive(Drop)]
struct AskLines<'a> {
    alloc: Global,
    queries: &'a [QueryDef],
}

impl<'a> LineItems for AskLines<'a> {
    type Item = ReaderItem;

    type End = u64;

    ghost can_read = { λ lines. length lines.queries.now ≤ 64 };

    ghost reading = { λ lines. asking lines.queries.now };

    ghost holds = { λ lines. IsItemInRange (length lines.queries.now) };

    fn of_line(&self, number: u64, line: &[u8]) -> Result<Option<ReaderItem>, TextEnd<u64>> {
        item_of_line(self.alloc, self.queries, number, line)
    }

    fn of_long_line(&self, number: u64, _front: &[u8]) -> Result<Option<ReaderItem>, TextEnd<u64>> {
        Ok(Some(ReaderItem::Long { line: number }))
    }
}

/// The next item of the reader, or how the reading of its asks ended: blank lines and comments are
/// passed over. An ask's query is told by its place among these.
pub fn next_ask<S: Source>(
    alloc: Global,
    queries: &[QueryDef],
    reader: &mut LineReader<S>,
) -> Result<ReaderItem, ReaderEnd>
    requires queries { length queries.now ≤ 64 }
    requires sound { IsTextReader S.left reader.old }
    requires limit { reader.old.byte_limit ≡ most_bytes }
    ensures ok { IfOk result (λ item.
        ReadsOn (asking queries.now) S.left reader.old reader.new (item ∷ [])) }
    ensures range { IfOk result (IsItemInRange (length queries.now)) }
    ensures err { IfErr result (EndsAsks queries.now S.left reader.old reader.new) }
    ensures read { CountsFault (result ≡ Err ReaderEnd.Read)
        (S.faults reader.old.source) (S.faults reader.new.source) }
    ensures limit { reader.new.byte_limit ≡ most_bytes }
{
    let lines = AskLines { alloc, queries };
    match next_item(&lines, reader) {
        Ok(item) => Ok(item),
        Err(end) => Err(end_of(end)),
    }
}

/// The end of a reader whose asks were read to this end.
fn end_of(end: TextEnd<u64>) -> ReaderEnd
    ensures { result ≡ end_of end }
{
    match end {
        TextEnd::Whole => ReaderEnd::Whole,
        TextEnd::LongText => ReaderEnd::LongText,
        TextEnd::Read => ReaderEnd::Read,
        TextEnd::Memory => ReaderEnd::Memory,
        TextEnd::Line(line) => ReaderEnd::Left { line },
    }
}

/// What the line with this number asks: a blank line or a comment asks nothing.
#[tactic(auto, unfolding(crate::specs::Items::line_asks))]
fn item_of_line(
    alloc: Global,
    queries: &[QueryDef],
    number: u64,
    line: &[u8],
) -> Result<Option<ReaderItem>, TextEnd<u64>>
    requires { length queries.now ≤ 64 }
    ensures ok { IfOk result (λ found. line_asks queries.now number line.now ≡ Ok found) }
    ensures err { IfErr result (EndsLine (line_asks queries.now number line.now)) }
    ensures range { IfOk result (λ found. IfSome found (IsItemInRange (length queries.now))) }
{
    if !is_ask_line(line) {
        return Ok(None);
    }
    let Ok(fields) = fields(alloc, line) else {
        return Err(TextEnd::Memory);
    };
    item_of_fields(alloc, queries, number, &fields)
}

/// What the line with these fields and this number asks.
#[tactic(auto, unfolding(crate::specs::Items::fields_ask))]
fn item_of_fields(
    alloc: Global,
    queries: &[QueryDef],
    number: u64,
    fields: &[&[u8]],
) -> Result<Option<ReaderItem>, TextEnd<u64>>
    requires { length queries.now ≤ 64 }
    ensures ok { IfOk result (λ found.
        fields_ask queries.now number (map (λ field. field.now) fields.now) ≡ Ok found) }
    ensures err { IfErr result
        (EndsLine (fields_ask queries.now number (map (λ field. field.now) fields.now))) }
    ensures range { IfOk result (λ found. IfSome found (IsItemInRange (length queries.now))) }
{
    if ends_reader(fields) {
        return Err(TextEnd::Line(number));
    }
    match read_ask(alloc, queries, fields) {
        Ok(ask) => Ok(Some(ReaderItem::Asked(ask))),
        Err(AskKind::Memory) => Err(TextEnd::Memory),
        Err(kind) => Ok(Some(ReaderItem::Faulty(AskFault { line: number, kind }))),
    }
}

/// Whether the fields are those of the line that ends a reader.
#[tactic(auto, unfolding(crate::specs::Items::ends_reader))]
fn ends_reader(fields: &[&[u8]]) -> bool
    ensures { result ≡ ends_reader (map (λ field. field.now) fields.now) }
{
    match fields {
        [word] => is_end(word),
        _ => false,
    }
}

/// Whether the field is the word that ends a reader.
fn is_end(word: &[u8]) -> bool
    ensures { result ≡ bytes_eq word.now (codes "end") }
{
    word == b"end".as_slice()
}
