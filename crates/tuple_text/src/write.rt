//! Writing a tuple.

ghost use Rattle.std.specs.Prelude.{◌≡◌, ◌+◌, ◌*◌, ◌≤◌, ◌++◌, length, codes, IfOk, OnOk};
ghost use Rattle.rpq_base.specs.Names.{IsName};
ghost use Rattle.rpq_base.specs.Plain.{IsPlainLabel, IsPlainAct, IsPlainTuple};
ghost use Rattle.tuple_text.specs.Parts.{IsStreamEdge};
ghost use Rattle.tuple_text.specs.Reading.{line_tuple};
ghost use Rattle.tuple_text.specs.Written.{written_edge, written_until, written_act, written};
ghost use Rattle.tuple_text.specs.Written.{IsStreamAct};

use crate::laws::{written_is_read, written_is_short};
use rpq_base::{Act, Edge, Memory, Name, Tuple};
use std::alloc::{AllocError, Global};
use text_parts::push_decimal;

/// The written form of a tuple, without a line feed: its time, for an insert or a delete the
/// source, the label, the target and the sign, and for an insert with an end of its own the word
/// `until` and this end, with one space between fields. The label points forwards.
///
/// [`read_tuple`](crate::read_tuple) reads it as the tuple that it was.
pub fn write_tuple(alloc: Global, tuple: &Tuple) -> Result<Vec<u8>, Memory>
    requires { IsPlainTuple tuple.now }
    ensures ok { IfOk result (λ text. text.items ≡ written tuple.now) }
    ensures read { IfOk result (λ text. line_tuple text.items ≡ Ok (Some tuple.now)) }
    ensures short { IfOk result (λ text. length text.items ≤ 19 + 3 * (1 + 255) + 2 + 7 + 19) }
{
    let mut text = Vec::new(alloc);
    push_tuple(&mut text, tuple)?;
    Ok(text)
}

/// Writes a tuple at the end of a text, in the form that [`write_tuple`] gives. The only error is
/// [`Memory`].
pub fn push_tuple(text: &mut Vec<u8>, tuple: &Tuple) -> Result<(), Memory>
    requires { IsPlainTuple tuple.now }
    ensures ok { OnOk result (text.new.items ≡ text.old.items ++ written tuple.now) }
    ensures read { OnOk result (line_tuple (written tuple.now) ≡ Ok (Some tuple.now)) }
    ensures short { OnOk result (length (written tuple.now) ≤ 19 + 3 * (1 + 255) + 2 + 7 + 19) }
{
    push_decimal(text, tuple.time)?;
    push_act(text, &tuple.act)?;
    written_is_read();
    written_is_short();
    Ok(())
}

/// Writes an act at the end of the text.
fn push_act(text: &mut Vec<u8>, act: &Act) -> Result<(), AllocError>
    requires { IsPlainAct act.now }
    ensures ok { OnOk result (text.new.items ≡ text.old.items ++ written_act act.now) }
    ensures stream { OnOk result (IsStreamAct act.now) }
{
    match act {
        Act::Insert { edge, until } => {
            push_edge(text, edge)?;
            text.extend_from_slice(b" +")?;
            push_until(text, *until)
        }
        Act::Delete(edge) => {
            push_edge(text, edge)?;
            text.extend_from_slice(b" -")
        }
        Act::Tick => Ok(()),
    }
}

/// Writes the end of its own that an insert has, if it has one, at the end of the text.
fn push_until(text: &mut Vec<u8>, until: Option<u64>) -> Result<(), AllocError>
    ensures { OnOk result (text.new.items ≡ text.old.items ++ written_until until) }
{
    match until {
        Some(end) => {
            text.extend_from_slice(b" until ")?;
            push_decimal(text, end)
        }
        None => Ok(()),
    }
}

/// Writes an edge at the end of the text, with a space before each of its fields.
fn push_edge(text: &mut Vec<u8>, edge: &Edge) -> Result<(), AllocError>
    requires { IsPlainLabel edge.now.label }
    ensures ok { OnOk result (text.new.items ≡ text.old.items ++ written_edge edge.now) }
    ensures stream { OnOk result (IsStreamEdge edge.now) }
{
    push_field(text, &edge.from)?;
    push_field(text, &edge.label.name)?;
    push_field(text, &edge.to)
}

/// Writes a name at the end of the text, after a space.
fn push_field(text: &mut Vec<u8>, name: &Name) -> Result<(), AllocError>
    ensures ok { OnOk result (text.new.items ≡ text.old.items ++ codes " " ++ name.now) }
    ensures name { OnOk result (IsName name.now) }
{
    text.push(b' ')?;
    text.extend_from_slice(name.as_bytes())
}
