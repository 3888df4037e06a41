//! The text of a saved window.

ghost use Rattle.std.specs.Prelude.{◌≡◌, ◌∷◌, [], ◌++◌, All, IfOk, OnOk};
ghost use Rattle.rpq_base.specs.Plain.{IsPlainTuple};
ghost use Rattle.text_parts.specs.Lines.{line_feed};
ghost use Rattle.tuple_text.specs.Written.{written, IsStreamTuple};
ghost use Rattle.stream_tuples.specs.declared.faults.FaultPolicy.{FaultPolicy as Policy};
ghost use Rattle.saved_window.specs.SavedText.{saved_text, IsReadBack};

use crate::laws::saved_text_is_read;
use rpq_base::{Memory, Tuple};
use std::alloc::Global;
use tuple_text::{line_by_parts, push_tuple};

/// The text of tuples as a stream: the written form of each, followed by a line feed. It is read
/// back as these tuples. Labels point forwards. The only error is [`Memory`].
pub fn saved_text(alloc: Global, tuples: &[Tuple]) -> Result<Vec<u8>, Memory>
    requires { All IsPlainTuple tuples.now }
    ensures ok { IfOk result (λ text. text.items ≡ saved_text tuples.now) }
    ensures read { IfOk result (λ _. (policy : Policy) → IsReadBack policy tuples.now) }
{
    let mut text = Vec::new(alloc);
    push_saved(&mut text, tuples)?;
    Ok(text)
}

/// Writes the tuples at the end of a text, as [`saved_text`] does.
pub fn push_saved(text: &mut Vec<u8>, tuples: &[Tuple]) -> Result<(), Memory>
    requires { All IsPlainTuple tuples.now }
    ensures ok { OnOk result (text.new.items ≡ text.old.items ++ saved_text tuples.now) }
    ensures read { OnOk result ((policy : Policy) → IsReadBack policy tuples.now) }
{
    for tuple in tuples {
        push_line(text, tuple)?;
    }
    saved_text_is_read();
    Ok(())
}

/// Writes a tuple and a line feed at the end of a text.
fn push_line(text: &mut Vec<u8>, tuple: &Tuple) -> Result<(), Memory>
    requires { IsPlainTuple tuple.now }
    ensures ok { OnOk result
        (text.new.items ≡ text.old.items ++ (written tuple.now ++ line_feed ∷ [])) }
    ensures stream { OnOk result (IsStreamTuple tuple.now) }
{
    push_tuple(text, tuple)?;
    text.push(b'\n')?;
    line_by_parts();
    Ok(())
}
