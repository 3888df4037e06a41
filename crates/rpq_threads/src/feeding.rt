//! The engine in the calling thread.

ghost use Rattle.std.specs.Prelude.{◌≡◌, OnOk, IfErr};
ghost use Rattle.std.specs.Result.{result_err};
ghost use Rattle.history_model.specs.Lines.{shut_line};
ghost use Rattle.standing.specs.Circles.{as_seen};
ghost use Rattle.stream_history.specs.History.{IsFeedingPass, HasAdded};
ghost use Rattle.rpq_threads.specs.Fed.{IsAtStart, HasFed};

use crate::blocks::{BlockText, Blocks};
use crate::entries::HistoryEntries;
use engine_loop::answer_all;
use entry_steps::{Evaluator, entries_stand_in, every_entry_has_a_step};
use history_model::Why;
use rpq_base::Entry;
use rpq_io::{Gate, Sink};
use standing::{Circle, Standing};
use std::sync::Wait;
use std::thread::Threads;
use stream_history::Pass;
use stream_threads::RunParts;

/// The engine with its pass, where its events are written, and the objects that are told of them;
/// and at the end, why it ended early, if it did.
#[derive(Drop)]
pub struct EngineWork<'a, K, O> {
    pub pass: Pass,
    pub evaluator: Evaluator,
    pub events: &'a mut K,
    pub circle: Circle<O>,
    pub why: Option<Why>,
    /// What was kept in the place of the history, if the history didn't keep it.
    pub window: Option<Vec<Entry>>,
}

/// Feeds the engine with all entries, writes their blocks, tells the objects of their events and
/// publishes the answers, until all streams have ended and no entry is left. Where memory runs out
/// or a write fails, it shuts the history and says why.
pub fn feed_all<'a, K: Sink, O: Standing, G: Gate, R: Threads + Wait + Sync>(
    shared: &RunParts<'_, R, G>,
    work: EngineWork<'a, K, O>,
) -> EngineWork<'a, K, O>
    requires { IsAtStart shared.now.history.now shared.now.queries.now work.evaluator work.pass
        (as_seen O.seen work.circle) }
    ensures fed { HasFed K.written K.faults work.entry.evaluator.options shared.now.history.now
        work.entry.events.now result.events.now (as_seen O.seen work.entry.circle)
        (as_seen O.seen result.circle) result.pass result.why result.window }
    ensures same { result.events.ghost_name ≡ work.entry.events.ghost_name }
{
    every_entry_has_a_step(); // these are called for their clauses
    entries_stand_in();
    let EngineWork {
        pass,
        mut evaluator,
        events,
        circle,
        why: _,
        window: _,
    } = work;
    let context = shared.context;
    let mut source = HistoryEntries::new(
        context.rt,
        context.alloc,
        shared.history,
        shared.queries,
        pass,
    );
    let mut blocks = Blocks {
        text: BlockText {
            alloc: context.alloc,
            bytes: Vec::new(context.alloc),
        },
        count: 0,
        events,
        circle,
    };
    let ended = answer_all(context, &mut source, &mut evaluator, &mut blocks);
    let (mut pass, window) = source.into_parts();
    let why = shut_for(shared, &mut pass, ended);
    let Blocks {
        text: _,
        count: _,
        events,
        circle,
    } = blocks;
    EngineWork {
        pass,
        evaluator,
        events,
        circle,
        why,
        window,
    }
}

/// Shuts the history, if the engine's loop ended early, and answers why it did.
fn shut_for<G: Gate, R: Threads + Wait + Sync>(
    shared: &RunParts<'_, R, G>,
    pass: &mut Pass,
    ended: Result<(), Why>,
) -> Option<Why>
    requires { IsFeedingPass shared.now.history.now pass.old }
    ensures why { result ≡ result_err ended }
    ensures as_it_was { OnOk ended (pass.new ≡ pass.old) }
    ensures shut { IfErr ended (λ why.
        HasAdded shared.now.history.now pass.old (shut_line why) pass.new) }
{
    match ended {
        Ok(()) => None,
        Err(why) => {
            shared.history.shut(shared.context.rt, pass, why);
            Some(why)
        }
    }
}
