//! The worker of a session.

ghost use Rattle.std.specs.Prelude.{◌≡◌, ◌++◌, ◌∷◌, [], length};
ghost use Rattle.std.specs.Prelude.{OnOk, OnErr};
ghost use Rattle.history_model.specs.Lines.{published};
ghost use Rattle.stream_history.specs.History.{IsPassOf, HasSeen};
ghost use Rattle.ask_text.specs.Ranges.{IsInRange};
ghost use Rattle.stream_threads.specs.Sessions.{HasReplied, AnswersOne};
ghost use Rattle.stream_threads.specs.Readers.{IsNewWork};

use crate::looking::reply;
use crate::run_parts::RunParts;
use crate::session_work::SessionWork;
use ask_text::Ask;
use ghost_list::GhostList;
use history_model::fronts_are_legal;
use rpq_base::Memory;
use rpq_io::Gate;
use std::sync::Wait;

/// Answers the asks of the session, each by a look at the history. A wait is answered once its
/// position is published, or no further one is to come.
pub fn serve_session<R: Wait, G: Gate>(shared: &RunParts<'_, R, G>, work: &mut SessionWork)
    requires new { IsNewWork shared.now.history.now work.old }
    requires queries { shared.now.queries.now ≡ shared.now.history.now.terms.queries }
    ensures { HasReplied shared.now.history.now work.old.pass work.old.asks.items work.new }
{
    fronts_are_legal(); // called for its clause
    let asks = std::mem::replace(&mut work.asks, Vec::new(shared.context.alloc));
    for ask in asks {
        match answer(shared, work, ask) {
            Ok(()) => {}
            Err(Memory) => {
                work.memory = true;
                return;
            }
        }
    }
}

/// Answers one ask of the session. The only error is [`Memory`], after which no reply was told.
fn answer<R: Wait, G: Gate>(
    shared: &RunParts<'_, R, G>,
    work: &mut SessionWork,
    ask: Ask,
) -> Result<(), Memory>
    requires is { IsPassOf shared.now.history.now work.old.pass }
    requires queries { shared.now.queries.now ≡ shared.now.history.now.terms.queries }
    requires range { IsInRange (length shared.now.queries.now) ask }
    ensures seen { HasSeen shared.now.history.now work.old.pass work.new.pass }
    ensures more { OnOk result
        (AnswersOne shared.now.history.now ask work.old.answers.items work.new) }
    ensures told { OnOk result (work.new.told
        ≡ work.old.told ++ published work.new.pass.seen ∷ []) }
    ensures unanswered { OnErr result (work.new.answers.items ≡ work.old.answers.items) }
    ensures untold { OnErr result (work.new.told ≡ work.old.told) }
    ensures memory { work.new.memory ≡ work.old.memory }
{
    let answered = reply(shared, &mut work.pass, ask)?;
    work.answers.reserve(1)?;
    tell_gate(
        shared.context.gate,
        work.number,
        answered.position,
        &mut work.told,
    );
    work.answers.push_reserved(answered);
    Ok(())
}

/// Tells the gate of a reply, and notes it for contracts.
fn tell_gate<G: Gate>(gate: &G, session: u32, position: u64, told: &mut GhostList<u64>)
    ensures { told.new ≡ told.old ++ position ∷ [] }
{
    gate.replied(session, position);
    told.push(&position);
}
