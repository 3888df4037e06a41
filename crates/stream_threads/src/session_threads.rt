//! The workers of the sessions, each in a thread of its own, beside other work.

ghost use Rattle.std.specs.Prelude.{◌≡◌, ◌+◌, ◌<◌, ℕ, length, map, slice_index_or};
ghost use Rattle.stream_threads.specs.Readers.{AreNewWorks, IsNewWork, HaveReplied};
ghost use Rattle.stream_threads.specs.Sessions.{HasReplied};

use crate::run_parts::RunParts;
use crate::session_work::SessionWork;
use crate::session_worker::serve_session;
use rpq_io::{Context, Gate};
use std::sync::Wait;
use std::thread::{Threads, for_each_mut, join};

/// Answers the asks of the sessions, each session in a thread of its own, and does the rest beside
/// it in the calling thread. If no thread can be made, the sessions come after the rest.
pub fn beside_sessions<B, F: FnOnce() -> B, G: Gate, R: Threads + Wait + Sync>(
    shared: &RunParts<'_, R, G>,
    works: Vec<SessionWork>,
    rest: F,
) -> (Vec<SessionWork>, B)
    requires new { AreNewWorks shared.now.history.now works.items }
    requires queries { shared.now.queries.now ≡ shared.now.history.now.terms.queries }
    requires rest { F.pre rest }
    ensures rest { F.post rest result.1 }
    ensures replied { HaveReplied shared.now.history.now
        (1 + shared.now.history.now.terms.streams) (map (λ work. work.asks.items) works.items)
        result.0.items }
    ensures many { length result.0.items ≡ length works.items }
{
    // The thread is handed the parts, since of a reference to a struct with a history in it no proof
    // is found that it may cross.
    let RunParts {
        context,
        history,
        queries,
    } = *shared;
    let Context { rt, alloc, gate } = *context;
    let serve = move || -> Vec<SessionWork>
        requires new { AreNewWorks history.now works.items }
        requires queries { queries.now ≡ history.now.terms.queries }
        ensures many { length result.items ≡ length works.items }
        ensures each { (i : ℕ) (d : _) → i < length works.items →
            HasReplied history.entry.now (slice_index_or works.items i d).pass
            (slice_index_or works.items i d).asks.items (slice_index_or result.items i d) }
    {
        let context = Context { rt, alloc, gate };
        let shared = RunParts {
            context: &context,
            history,
            queries,
        };
        serve_all(&shared, works)
    };
    join(rt, serve, rest)
}

/// Answers the asks of the sessions, each session in a thread of its own, as far as threads can be
/// made.
fn serve_all<G: Gate, R: Threads + Wait + Sync>(
    shared: &RunParts<'_, R, G>,
    mut works: Vec<SessionWork>,
) -> Vec<SessionWork>
    requires new { AreNewWorks shared.now.history.now works.items }
    requires queries { shared.now.queries.now ≡ shared.now.history.now.terms.queries }
    ensures many { length result.items ≡ length works.items }
    ensures each { (i : ℕ) (d : _) → i < length works.items →
        HasReplied shared.now.history.now (slice_index_or works.items i d).pass
        (slice_index_or works.items i d).asks.items (slice_index_or result.items i d) }
{
    let RunParts {
        context,
        history,
        queries,
    } = *shared;
    let Context { rt, alloc, gate } = *context;
    if works.is_empty() {
        return works;
    }
    let threads = works.len();
    for_each_mut(
        rt,
        &mut works,
        threads,
        &|_place: usize, work: &mut SessionWork|
            requires new { IsNewWork history.now work.now }
            requires queries { queries.now ≡ history.now.terms.queries }
            ensures { HasReplied history.entry.now work.entry.now.pass work.entry.now.asks.items
                work.exit.now }
        {
            let context = Context { rt, alloc, gate };
            let shared = RunParts {
                context: &context,
                history,
                queries,
            };
            serve_session(&shared, work)
        },
    );
    works
}
