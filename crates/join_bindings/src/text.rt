//! Changes of bindings as text.

ghost use Rattle.std.specs.Prelude.{◌≡◌, ◌<◌, ◌++◌, length, All, IfOk, OnOk};
ghost use Rattle.join_bindings.specs.JoinText.{join_lines, join_line, name_at, values_text};

use crate::event::JoinEvent;
use join_file::JoinDef;
use rpq_base::{Memory, Name};
use std::alloc::Global;

/// The text of these changes: a line for each, `++ NAME V V ...` for a binding that is gained and
/// `-- NAME V V ...` for one that is lost, with the names that it gives the variables, in the order
/// of their numbers. Each event has the number of one of the joins. The only error is [`Memory`].
pub fn join_text(alloc: Global, events: &[JoinEvent], defs: &[JoinDef]) -> Result<Vec<u8>, Memory>
    requires { All (λ event. event.join < length defs.now) events.now }
    ensures { IfOk result (λ text. text.items ≡ join_lines defs.now events.now) }
{
    let mut text = Vec::new(alloc);
    push_join_lines(&mut text, events, defs)?;
    Ok(text)
}

/// Writes the lines of these changes, as [`join_text`] gives them, at the end of the text, such as
/// the block of an entry. The only error is [`Memory`].
pub fn push_join_lines(
    text: &mut Vec<u8>,
    events: &[JoinEvent],
    defs: &[JoinDef],
) -> Result<(), Memory>
    requires { All (λ event. event.join < length defs.now) events.now }
    ensures { OnOk result (text.new.items ≡ text.old.items ++ join_lines defs.now events.now) }
{
    for event in events {
        push_line(text, event, defs)?;
    }
    Ok(())
}

/// Writes the line of a change at the end of the text.
fn push_line(text: &mut Vec<u8>, event: &JoinEvent, defs: &[JoinDef]) -> Result<(), Memory>
    requires { event.now.join < length defs.now }
    ensures { OnOk result (text.new.items ≡ text.old.items ++ join_line defs.now event.now) }
{
    let sign = if event.added { b"++ " } else { b"-- " };
    text.extend_from_slice(sign)?;
    text.extend_from_slice(name_at(defs, event.join))?;
    push_values(text, event.binding.names())?;
    text.extend_from_slice(b"\n")?;
    Ok(())
}

/// The name of the join with this number.
fn name_at(defs: &[JoinDef], number: u32) -> &[u8]
    requires { number < length defs.now }
    ensures { result.now ≡ name_at defs.now number }
{
    let def = &defs[number as usize];
    def.name.as_bytes()
}

/// Writes the names at the end of the text, each behind a space.
fn push_values(text: &mut Vec<u8>, names: &[Name]) -> Result<(), Memory>
    ensures { OnOk result (text.new.items ≡ text.old.items ++ values_text names.now) }
{
    for name in names {
        text.extend_from_slice(b" ")?;
        text.extend_from_slice(name.as_bytes())?;
    }
    Ok(())
}
