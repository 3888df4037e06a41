//! Labels and words of labels as they are written.

ghost use Rattle.std.specs.Prelude.{◌≡◌, ◌++◌, IfOk, OnOk};
ghost use Rattle.std.specs.List.{list_all};
ghost use Rattle.rpq_base.specs.Names.{IsName};
ghost use Rattle.path_syntax.specs.Grammar.{is_bare_byte, quoted};
ghost use Rattle.path_syntax.specs.Written.{written_name, written_label, written_word};

use crate::byte_kind::is_bare_byte;
use rpq_base::{Label, Memory};
use std::alloc::Global;

/// The text of a word: its labels in their written form, joined by `/`, and `()` for the empty
/// word.
pub fn write_word(alloc: Global, word: &[Label]) -> Result<Vec<u8>, Memory>
    ensures { IfOk result (λ text. text.items ≡ written_word word.now) }
{
    let mut text = Vec::new(alloc);
    let [first, rest @ ..] = word else {
        text.extend_from_slice(b"()")?;
        return Ok(text);
    };
    push_label(&mut text, first)?;
    for label in rest {
        text.push(b'/')?;
        push_label(&mut text, label)?;
    }
    Ok(text)
}

/// Writes a label at the end of the text.
pub(crate) fn push_label(text: &mut Vec<u8>, label: &Label) -> Result<(), Memory>
    ensures text { OnOk result (text.new.items ≡ text.old.items ++ written_label label.now) }
    ensures named { OnOk result (IsName label.now.name) }
{
    if label.back {
        text.push(b'^')?;
    }
    push_name(text, label.name.as_bytes())
}

/// Writes a name at the end of the text, in quotes where it needs them.
fn push_name(text: &mut Vec<u8>, name: &[u8]) -> Result<(), Memory>
    ensures { OnOk result (text.new.items ≡ text.old.items ++ written_name name.now) }
{
    if is_bare(name) {
        text.extend_from_slice(name)?;
        return Ok(());
    }
    text.push(b'"')?;
    push_escaped(text, name)?;
    text.push(b'"')?;
    Ok(())
}

/// Whether a name may stand without quotes.
fn is_bare(name: &[u8]) -> bool
    ensures { result ≡ list_all is_bare_byte name.now }
{
    name.iter().all(|byte| is_bare_byte(*byte))
}

/// Writes a name as it stands within quotes.
fn push_escaped(text: &mut Vec<u8>, name: &[u8]) -> Result<(), Memory>
    ensures { OnOk result (text.new.items ≡ text.old.items ++ quoted name.now) }
{
    for byte in name {
        if matches!(byte, b'"' | b'\\') {
            text.push(b'\\')?;
        }
        text.push(*byte)?;
    }
    Ok(())
}
