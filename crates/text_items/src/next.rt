//! The items of a text, one after another.

ghost use Rattle.std.specs.Prelude.{◌≡◌, ◌+◌, ◌<◌, ◌∷◌, [], option_to_list, IfOk, IfErr, IfSome, Err};
ghost use Rattle.rpq_io.specs.Counts.{CountsFault};
ghost use Rattle.text_parts.specs.Lines.{line_length};
ghost use Rattle.text_items.specs.Limits.{line_limit};
ghost use Rattle.text_items.specs.Progress.{IsTextReader, ReadsOn, EndsReading};

use crate::ends::TextEnd;
use crate::lines::LineItems;
use rpq_io::{LineFault, LineReader, Source};

/// The next item of the text, or how its reading ended: lines that give nothing are passed over, and
/// so is what a line that is too long has behind its first bytes.
pub fn next_item<L: LineItems, S: Source>(
    lines: &L,
    reader: &mut LineReader<S>,
) -> Result<L::Item, TextEnd<L::End>>
    requires able { L.can_read lines.now }
    requires sound { IsTextReader S.left reader.old }
    ensures good { IfOk result (L.holds lines.now) }
    ensures ok { IfOk result (λ item.
        ReadsOn (L.reading lines.now) S.left reader.old reader.new (item ∷ [])) }
    ensures err { IfErr result
        (EndsReading (L.reading lines.now) S.left reader.old reader.new) }
    ensures read { CountsFault (result ≡ Err TextEnd.Read)
        (S.faults reader.old.source) (S.faults reader.new.source) }
    ensures limits { reader.new.byte_limit ≡ reader.old.byte_limit }
{
    loop {
        if let Some(item) = read_line(lines, reader)? {
            return Ok(item);
        }
    }
}

/// What the next line of the text gives, an item or nothing, or how the reading ended.
fn read_line<L: LineItems, S: Source>(
    lines: &L,
    reader: &mut LineReader<S>,
) -> Result<Option<L::Item>, TextEnd<L::End>>
    requires able { L.can_read lines.now }
    requires sound { IsTextReader S.left reader.old }
    ensures good { IfOk result (λ found. IfSome found (L.holds lines.now)) }
    ensures ok { IfOk result (λ found.
        ReadsOn (L.reading lines.now) S.left reader.old reader.new (option_to_list found)) }
    ensures err { IfErr result
        (EndsReading (L.reading lines.now) S.left reader.old reader.new) }
    ensures read { CountsFault (result ≡ Err TextEnd.Read)
        (S.faults reader.old.source) (S.faults reader.new.source) }
    ensures limits { reader.new.byte_limit ≡ reader.old.byte_limit }
{
    let number = reader.lines() + 1;
    match reader.lend_line() {
        Ok(Some(line)) => lines.of_line(number, line),
        Ok(None) => Err(TextEnd::Whole),
        Err(LineFault::Read) => Err(TextEnd::Read),
        Err(LineFault::LongLine) => read_long_line(lines, reader, number),
        Err(LineFault::LongStream) => Err(TextEnd::LongText),
        Err(LineFault::Memory) => Err(TextEnd::Memory),
    }
}

/// What the next line of the text gives, of which the first bytes are held and which is too long: an
/// item or nothing, or how the reading ended. The other bytes of the line are passed over.
fn read_long_line<L: LineItems, S: Source>(
    lines: &L,
    reader: &mut LineReader<S>,
    number: u64,
) -> Result<Option<L::Item>, TextEnd<L::End>>
    requires able { L.can_read lines.now }
    requires sound { IsTextReader S.left reader.old }
    requires long { line_limit < line_length reader.old.held_bytes }
    requires number { number ≡ reader.old.line_count + 1 }
    ensures good { IfOk result (λ found. IfSome found (L.holds lines.now)) }
    ensures ok { IfOk result (λ found.
        ReadsOn (L.reading lines.now) S.left reader.old reader.new (option_to_list found)) }
    ensures err { IfErr result
        (EndsReading (L.reading lines.now) S.left reader.old reader.new) }
    ensures read { CountsFault (result ≡ Err TextEnd.Read)
        (S.faults reader.old.source) (S.faults reader.new.source) }
    ensures limits { reader.new.byte_limit ≡ reader.old.byte_limit }
{
    let found = lines.of_long_line(number, reader.front())?;
    match reader.pass_long_line() {
        Ok(()) => Ok(found),
        Err(LineFault::Read) => Err(TextEnd::Read),
        Err(LineFault::LongStream) => Err(TextEnd::LongText),
        Err(LineFault::LongLine | LineFault::Memory) => unreachable!(),
    }
}
