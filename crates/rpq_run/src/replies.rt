//! The replies, which are written session by session.

ghost use Rattle.std.specs.Prelude.{◌≤◌, length, map};
ghost use Rattle.ask_text.specs.Replies.{replies, session_text};
ghost use Rattle.rpq_run.specs.Parts.{WritesIfThere, WritesPart};
ghost use Rattle.rpq_run.specs.Replies.{session_limit, texts_of};

use crate::fault::TextFault;
use ask_text::{Answered, session_text};
use rpq_io::{Sink, put_all};
use std::alloc::Global;

/// Writes the replies of the sessions, in order, where there is a sink for them.
pub fn write_replies<K: Sink>(
    alloc: Global,
    sink: &mut Option<K>,
    sessions: &[Vec<Answered>],
) -> Result<(), TextFault>
    requires { length sessions.now ≤ session_limit }
    ensures { WritesIfThere K.written K.faults
        (replies (texts_of (map (λ own. own.items) sessions.now)))
        sink.old sink.new result }
{
    match sink {
        Some(sink) => write_sessions(alloc, sink, sessions),
        None => Ok(()),
    }
}

/// Writes the text of each session, in order.
fn write_sessions<K: Sink>(
    alloc: Global,
    sink: &mut K,
    sessions: &[Vec<Answered>],
) -> Result<(), TextFault>
    requires { length sessions.now ≤ session_limit }
    ensures { WritesPart K.written K.faults
        (replies (texts_of (map (λ own. own.items) sessions.now))) sink.old sink.new result }
{
    for (place, answers) in sessions.iter().enumerate() {
        if let Err(fault) = write_session(alloc, sink, place as u32 + 1, answers) {
            return Err(fault);
        }
    }
    Ok(())
}

/// Writes the text of the session with this number, counted from 1.
fn write_session<K: Sink>(
    alloc: Global,
    sink: &mut K,
    number: u32,
    answers: &[Answered],
) -> Result<(), TextFault>
    ensures { WritesPart K.written K.faults
        (session_text number (map (λ one. one.text) answers.now)) sink.old sink.new result }
{
    let text = session_text(alloc, number, answers)?;
    put_all(sink, &text)?;
    Ok(())
}
