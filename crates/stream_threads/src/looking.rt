//! How an ask is answered by a look at the history.

ghost use Rattle.std.specs.Prelude.{◌≡◌, ◌<◌, ◌↔◌, ℕ, true, false, length, Some, IfOk};
ghost use Rattle.std.specs.Prelude.{IsTrue};
ghost use Rattle.history_model.specs.declared.line.Why.{Why as Reason};
ghost use Rattle.history_model.specs.Lines.{entries, published, IsShutFor};
ghost use Rattle.stream_history.specs.Journal.{ShowsFront};
ghost use Rattle.stream_history.specs.History.{IsPassOf, HasSeen, IsOver};
ghost use Rattle.ask_text.specs.Ranges.{IsInRange, ended_at};
ghost use Rattle.stream_threads.specs.Sessions.{HasReply, FindsOver};

use crate::run_parts::RunParts;
use answer_view::View;
use ask_text::{Answered, Ask, reply_text};
use history_model::Why;
use rpq_base::Memory;
use rpq_io::Gate;
use std::sync::{Arc, Wait};
use stream_history::{Looked, Pass};

/// Answers one ask. A wait is answered once its position is published, or no further one is to
/// come.
pub(crate) fn reply<R: Wait, G: Gate>(
    shared: &RunParts<'_, R, G>,
    pass: &mut Pass,
    ask: Ask,
) -> Result<Answered, Memory>
    requires is { IsPassOf shared.now.history.now pass.old }
    requires queries { shared.now.queries.now ≡ shared.now.history.now.terms.queries }
    requires range { IsInRange (length shared.now.queries.now) ask }
    ensures seen { HasSeen shared.now.history.now pass.old pass.new }
    ensures ask { IfOk result (λ answered. answered.ask ≡ ask) }
    ensures reply { IfOk result (HasReply shared.now.history.now pass.new.seen) }
    ensures at { IfOk result (λ answered. answered.position ≡ published pass.new.seen) }
{
    let view = look_for(shared, pass, &ask)?;
    let position = view.position();
    let ended = ask.is_ended_at(position);
    let text = reply_text(shared.context.alloc, &ask, &view, shared.queries, ended)?;
    Ok(Answered {
        ask,
        position,
        text,
    })
}

/// Answers one ask by a view that is published from now on, if there are entries without one; else
/// by that of all entries.
pub(crate) fn fresh_reply<R: Wait, G: Gate>(
    shared: &RunParts<'_, R, G>,
    pass: &mut Pass,
    ask: Ask,
) -> Result<Answered, Memory>
    requires is { IsPassOf shared.now.history.now pass.old }
    requires queries { shared.now.queries.now ≡ shared.now.history.now.terms.queries }
    requires range { IsInRange (length shared.now.queries.now) ask }
    ensures seen { HasSeen shared.now.history.now pass.old pass.new }
    ensures ask { IfOk result (λ answered. answered.ask ≡ ask) }
    ensures reply { IfOk result (HasReply shared.now.history.now pass.new.seen) }
    ensures at { IfOk result (λ answered. answered.position ≡ published pass.new.seen) }
{
    await_view(shared, pass)?;
    reply(shared, pass, ask)
}

/// Sleeps until the next view is published, if there are entries without one and it may come. The
/// engine puts no view off that somebody sleeps for.
fn await_view<R: Wait, G: Gate>(shared: &RunParts<'_, R, G>, pass: &mut Pass) -> Result<(), Memory>
    requires { IsPassOf shared.now.history.now pass.old }
    ensures { HasSeen shared.now.history.now pass.old pass.new }
{
    let looked = shared.history.look(shared.context.rt, pass)?;
    let position = looked.view.position();
    if looked.length <= position {
        return Ok(());
    }
    look_for(shared, pass, &Ask::Wait(position + 1))?;
    Ok(())
}

/// Looks at the history until the ask can be answered, and sleeps in between.
fn look_for<R: Wait, G: Gate>(
    shared: &RunParts<'_, R, G>,
    pass: &mut Pass,
    ask: &Ask,
) -> Result<Arc<View>, Memory>
    requires { IsPassOf shared.now.history.now pass.old }
    ensures seen { HasSeen shared.now.history.now pass.old pass.new }
    ensures position { IfOk result (λ view. view.value.position ≡ published pass.new.seen) }
    ensures shows { IfOk result (λ view. ShowsFront shared.now.history.now.terms.queries
        (entries pass.new.seen) view.value) }
    ensures over { IfOk result (λ view. ended_at ask.now view.value.position ≡ true
        → IsOver shared.now.history.now.terms.streams pass.new.seen view.value.position) }
{
    let history = shared.history;
    let rt = shared.context.rt;
    for _ in rt.forever() {
        let looked = history.look(rt, pass)?;
        if is_enough_for(ask, &looked) {
            return Ok(looked.view);
        }
        history.sleep_until_views(rt, looked.heard, wanted_position(ask));
    }
    unreachable!()
}

/// The position that the ask waits for; 0 if it waits for none.
fn wanted_position(ask: &Ask) -> u64
    ensures { (position : ℕ) → (ended_at ask.now position ≡ true) ↔ (position < result) }
{
    match ask {
        Ask::Wait(position) => *position,
        _ => 0,
    }
}

/// Whether the ask can be answered by what was looked at: it waits for no later position, or none
/// is to come.
fn is_enough_for(ask: &Ask, looked: &Looked) -> bool
    ensures enough { result ≡ true → ended_at ask.now looked.now.view.value.position ≡ true
        → FindsOver looked.now }
    ensures waits { result ≡ false → ended_at ask.now looked.now.view.value.position ≡ true }
    ensures goes_on { result ≡ false → FindsOver looked.now → ⊥ }
{
    !ask.is_ended_at(looked.view.position()) || is_over(looked)
}

/// Whether no further position will be published.
fn is_over(looked: &Looked) -> bool
    ensures { IsTrue result ↔ FindsOver looked.now }
{
    looked.shut.is_some() || looked.all_ended && looked.view.position() == looked.length
}

/// Why the history is shut, if it is by now.
pub(crate) fn shut_reason<R: Wait, G: Gate>(
    shared: &RunParts<'_, R, G>,
    pass: &mut Pass,
) -> Result<Option<Why>, Memory>
    requires { IsPassOf shared.now.history.now pass.old }
    ensures seen { HasSeen shared.now.history.now pass.old pass.new }
    ensures shut { IfOk result (λ shut. (why : Reason) →
        (shut ≡ Some why) ↔ IsShutFor pass.new.seen why) }
{
    let looked = shared.history.look(shared.context.rt, pass)?;
    Ok(looked.shut)
}
