//! Words of labels as they are told.

ghost use Rattle.std.specs.Prelude.{◌≡◌, ◌∷◌, Some, encode_utf8};
ghost use Rattle.std.specs.Fmt.{DisplaysOnOk};
ghost use Rattle.std.specs.List.{flat_map, list_all};
ghost use Rattle.path_syntax.specs.Grammar.{is_bare_byte, quoted};
ghost use Rattle.path_syntax.specs.Written.{written_label, written_name, written_word};

use rpq_base::{Label, Name, Word};
use std::fmt;
use std::str::from_utf8;

/// A word as it is told: its labels in their written form with `/` between them, and `()` for the
/// empty word. To tell a name that isn't UTF-8 is an error.
#[derive(Clone, Copy)]
pub struct WordText<'a>(pub &'a Word);

impl fmt::Display for WordText<'_> {
    ghost output = { λ text. Some (written_word text.0.now) };

    fn fmt<W: fmt::Write>(&self, f: &mut fmt::Formatter<W>) -> fmt::Result {
        let word: &Word = self.0;
        let [first, rest @ ..] = word.labels.as_slice() else {
            return f.write_str("()");
        };
        write_label(first, f)?;
        write_rest(rest, f)
    }
}

/// Writes labels, each behind a slash.
fn write_rest<W: fmt::Write>(labels: &[Label], f: &mut fmt::Formatter<W>) -> fmt::Result
    ensures { DisplaysOnOk W.write_str_gives f.old result
        (Some (flat_map (λ label. 47 ∷ written_label label) labels.now)) f.new }
{
    for label in labels {
        f.write_str("/")?;
        write_label(label, f)?;
    }
    Ok(())
}

/// Writes a label.
fn write_label<W: fmt::Write>(label: &Label, f: &mut fmt::Formatter<W>) -> fmt::Result
    ensures { DisplaysOnOk W.write_str_gives f.old result (Some (written_label label.now)) f.new }
{
    if label.back {
        f.write_str("^")?;
    }
    write_name(label.name.as_bytes(), f)
}

/// Writes a name, in quotes where it needs them.
fn write_name<W: fmt::Write>(name: &[u8], f: &mut fmt::Formatter<W>) -> fmt::Result
    ensures { DisplaysOnOk W.write_str_gives f.old result (Some (written_name name.now)) f.new }
{
    let Ok(text) = from_utf8(name) else {
        return Err(fmt::Error);
    };
    if is_bare(name) {
        return f.write_str(text);
    }
    f.write_str("\"")?;
    write_escaped(text, f)?;
    f.write_str("\"")
}

/// Whether a name may stand without quotes.
fn is_bare(name: &[u8]) -> bool
    ensures { result ≡ list_all is_bare_byte name.now }
{
    name.iter().all(|byte| is_bare_byte(*byte))
}

/// Whether the byte may stand in a label without quotes.
fn is_bare_byte(byte: u8) -> bool
    ensures { result ≡ is_bare_byte byte }
{
    Name::is_name_byte(byte) && !b"/|*+?()^!\"\\".contains(&byte)
}

/// Writes a name as it stands within quotes.
fn write_escaped<W: fmt::Write>(name: &str, f: &mut fmt::Formatter<W>) -> fmt::Result
    ensures { DisplaysOnOk W.write_str_gives f.old result (Some (quoted name.now)) f.new }
{
    for letter in name.chars() {
        write_letter(letter, f)?;
    }
    Ok(())
}

/// Writes a letter as it stands within quotes.
fn write_letter<W: fmt::Write>(letter: char, f: &mut fmt::Formatter<W>) -> fmt::Result
    ensures { DisplaysOnOk W.write_str_gives f.old result
        (Some (quoted (encode_utf8 letter))) f.new }
{
    if letter == '"' || letter == '\\' {
        return write!(f, "\\{letter}");
    }
    f.write_char(letter)
}
