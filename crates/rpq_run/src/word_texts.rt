//! Words as they are written, put on a sink piece by piece, so that they take no memory.

ghost use Rattle.std.specs.Prelude.{◌≡◌, ◌++◌, codes};
ghost use Rattle.std.specs.List.{flat_map, list_all};
ghost use Rattle.path_syntax.specs.Grammar.{escaped, is_bare_byte, quoted};
ghost use Rattle.path_syntax.specs.Written.{caret, written_label, written_name};
ghost use Rattle.rpq_text.specs.WordTexts.{slashed_label, spaced_word};
ghost use Rattle.rpq_run.specs.Written.{Tells};

use rpq_base::{Label, Name, Word};
use rpq_io::{Failed, Sink, put_all};

/// Writes a piece of a text.
pub fn put_piece<S: Sink>(sink: &mut S, piece: &[u8]) -> Result<(), Failed>
    ensures { Tells S.written S.faults piece.now sink.old sink.new result }
{
    put_all(sink, piece)
}

/// Writes the words, each behind a space, and ends the line.
pub fn end_with_words<S: Sink>(sink: &mut S, words: &[&Word]) -> Result<(), Failed>
    ensures { Tells S.written S.faults
        (flat_map (λ word. spaced_word word.now) words.now ++ codes "\n")
        sink.old sink.new result }
{
    put_words(sink, words)?;
    put_piece(sink, b"\n")
}

/// Writes the words, each behind a space.
fn put_words<S: Sink>(sink: &mut S, words: &[&Word]) -> Result<(), Failed>
    ensures { Tells S.written S.faults (flat_map (λ word. spaced_word word.now) words.now)
        sink.old sink.new result }
{
    for word in words {
        put_word(sink, &word.labels)?;
    }
    Ok(())
}

/// Writes a word behind a space.
fn put_word<S: Sink>(sink: &mut S, word: &[Label]) -> Result<(), Failed>
    ensures { Tells S.written S.faults (spaced_word word.now) sink.old sink.new result }
{
    let [first, rest @ ..] = word else {
        return put_piece(sink, b" ()");
    };
    put_label(sink, b" ", first)?;
    put_slashed(sink, rest)
}

/// Writes the labels, each behind a slash.
fn put_slashed<S: Sink>(sink: &mut S, labels: &[Label]) -> Result<(), Failed>
    ensures { Tells S.written S.faults (flat_map slashed_label labels.now)
        sink.old sink.new result }
{
    for label in labels {
        put_label(sink, b"/", label)?;
    }
    Ok(())
}

/// Writes a label behind a text.
fn put_label<S: Sink>(sink: &mut S, before: &[u8], label: &Label) -> Result<(), Failed>
    ensures { Tells S.written S.faults (before.now ++ written_label label.now)
        sink.old sink.new result }
{
    put_piece(sink, before)?;
    put_piece(sink, caret(label.back))?;
    put_name(sink, label.name.as_bytes())
}

/// What stands before a label that is taken backwards, or isn't.
fn caret(back: bool) -> &'static [u8]
    ensures { result.now ≡ caret back }
{
    if back { b"^" } else { b"" }
}

/// Writes a name, in quotes where it needs them.
fn put_name<S: Sink>(sink: &mut S, name: &[u8]) -> Result<(), Failed>
    ensures { Tells S.written S.faults (written_name name.now) sink.old sink.new result }
{
    if is_bare(name) {
        return put_piece(sink, name);
    }
    put_piece(sink, b"\"")?;
    put_quoted(sink, name)?;
    put_piece(sink, b"\"")
}

/// Whether a name may stand without quotes.
fn is_bare(name: &[u8]) -> bool
    ensures { result ≡ list_all is_bare_byte name.now }
{
    name.iter().all(|byte| is_bare_byte(*byte))
}

/// Whether a byte may stand in a name without quotes.
fn is_bare_byte(byte: u8) -> bool
    ensures { result ≡ is_bare_byte byte }
{
    Name::is_name_byte(byte) && !b"/|*+?()^!\"\\".contains(&byte)
}

/// Writes a name as it stands within quotes.
fn put_quoted<S: Sink>(sink: &mut S, name: &[u8]) -> Result<(), Failed>
    ensures { Tells S.written S.faults (quoted name.now) sink.old sink.new result }
{
    for byte in name {
        put_escaped(sink, *byte)?;
    }
    Ok(())
}

/// Writes a byte of a name as it stands within quotes.
fn put_escaped<S: Sink>(sink: &mut S, byte: u8) -> Result<(), Failed>
    ensures { Tells S.written S.faults (escaped byte) sink.old sink.new result }
{
    if matches!(byte, b'"' | b'\\') {
        put_piece(sink, &[b'\\', byte])
    } else {
        put_piece(sink, &[byte])
    }
}
