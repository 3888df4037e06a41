//! The text of a session.

ghost use Rattle.std.specs.Prelude.{◌≡◌, ◌++◌, map, IfOk, OnOk};
ghost use Rattle.ask_text.specs.Replies.{session_line, session_text};

use crate::ask::Answered;
use rpq_base::Memory;
use std::alloc::Global;
use text_parts::push_decimal;

/// The text of the session with this number, counted from 1: its line, and then the replies to its
/// asks. The only error is [`Memory`].
pub fn session_text(alloc: Global, number: u32, answers: &[Answered]) -> Result<Vec<u8>, Memory>
    ensures { IfOk result (λ text. text.items
        ≡ session_text number (map (λ each. each.text) answers.now)) }
{
    let mut text = Vec::new(alloc);
    push_session(&mut text, number)?;
    for answered in answers {
        text.extend_from_slice(&answered.text)?;
    }
    Ok(text)
}

/// Writes the line of the session with this number at the end of the text.
fn push_session(text: &mut Vec<u8>, number: u32) -> Result<(), Memory>
    ensures { OnOk result (text.new.items ≡ text.old.items ++ session_line number) }
{
    text.extend_from_slice(b"session ")?;
    push_decimal(text, u64::from(number))?;
    text.extend_from_slice(b"\n")?;
    Ok(())
}
