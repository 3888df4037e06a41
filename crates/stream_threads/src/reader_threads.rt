//! The workers of the readers, each in a thread of its own, beside other work.

ghost use Rattle.std.specs.Prelude.{◌≡◌, ◌<◌, ◌≤◌, ℕ, length, map, slice_index_or};
ghost use Rattle.stream_threads.specs.Live.{AreNewReaderWorks, IsNewReaderWork, HaveNewPasses};
ghost use Rattle.stream_threads.specs.Live.{HasServed, HaveServed};

use crate::reader_work::ReaderWork;
use crate::reader_worker::serve_reader;
use crate::run_parts::RunParts;
use crate::sharing::{threads_share_histories, threads_share_queries};
use rpq_io::{Context, Gate, Sink, Source};
use std::sync::Wait;
use std::thread::{Threads, for_each_mut, join};

/// Answers what the readers ask, each reader in a thread of its own, and does the rest beside it in
/// the calling thread. If no thread can be made, the readers come after the rest.
pub fn beside_readers<
    B,
    F: FnOnce() -> B,
    S: Source + Send + Drop,
    K: Sink + Send + Drop,
    G: Gate,
    R: Threads + Wait + Sync,
>(shared: &RunParts<'_, R, G>, works: Vec<ReaderWork<S, K>>, rest: F) -> (Vec<ReaderWork<S, K>>, B)
    requires new { AreNewReaderWorks S.left S.faults K.written K.faults shared.now.history.now
        works.items }
    requires queries { shared.now.queries.now ≡ shared.now.history.now.terms.queries }
    requires few { length shared.now.queries.now ≤ 64 }
    requires rest { F.pre rest }
    ensures rest { F.post rest result.1 }
    ensures served { (from : ℕ) → HaveNewPasses shared.now.history.now from works.items →
        HaveServed S.left S.faults K.written K.faults shared.now.history.now from
        (map (λ work. work.reader.source) works.items) result.0.items }
    ensures many { length result.0.items ≡ length works.items }
{
    let RunParts {
        context,
        history,
        queries,
    } = *shared;
    let Context { rt, alloc, gate } = *context;
    threads_share_histories(history); // called for its clause
    threads_share_queries(queries); // called for its clause
    let serve = move || -> Vec<ReaderWork<S, K>>
        requires new { AreNewReaderWorks S.left S.faults K.written K.faults history.now works.items }
        requires queries { queries.now ≡ history.now.terms.queries }
        requires few { length queries.now ≤ 64 }
        ensures many { length result.items ≡ length works.items }
        ensures each { (i : ℕ) (d : _) → i < length works.items →
            HasServed S.left S.faults K.written K.faults history.entry.now
            (slice_index_or works.items i d).reader.source (slice_index_or works.items i d).pass
            (slice_index_or result.items i d) }
    {
        let context = Context { rt, alloc, gate };
        let shared = RunParts {
            context: &context,
            history,
            queries,
        };
        serve_all(&shared, works)
    };
    join(rt, serve, rest)
}

/// Answers what the readers ask, each reader in a thread of its own, as far as threads can be made.
fn serve_all<S: Source + Send + Drop, K: Sink + Send + Drop, G: Gate, R: Threads + Wait + Sync>(
    shared: &RunParts<'_, R, G>,
    mut works: Vec<ReaderWork<S, K>>,
) -> Vec<ReaderWork<S, K>>
    requires new { AreNewReaderWorks S.left S.faults K.written K.faults shared.now.history.now
        works.items }
    requires queries { shared.now.queries.now ≡ shared.now.history.now.terms.queries }
    requires few { length shared.now.queries.now ≤ 64 }
    ensures many { length result.items ≡ length works.items }
    ensures each { (i : ℕ) (d : _) → i < length works.items →
        HasServed S.left S.faults K.written K.faults shared.now.history.now
        (slice_index_or works.items i d).reader.source (slice_index_or works.items i d).pass
        (slice_index_or result.items i d) }
{
    let RunParts {
        context,
        history,
        queries,
    } = *shared;
    let Context { rt, alloc, gate } = *context;
    threads_share_histories(history); // called for its clause
    threads_share_queries(queries); // called for its clause
    if works.is_empty() {
        return works;
    }
    let threads = works.len();
    for_each_mut(
        rt,
        &mut works,
        threads,
        &|_place: usize, work: &mut ReaderWork<S, K>|
            requires new { IsNewReaderWork S.left S.faults K.written K.faults history.now work.now }
            requires queries { queries.now ≡ history.now.terms.queries }
            requires few { length queries.now ≤ 64 }
            ensures { HasServed S.left S.faults K.written K.faults history.entry.now
                work.entry.now.reader.source work.entry.now.pass work.exit.now }
        {
            let context = Context { rt, alloc, gate };
            let shared = RunParts {
                context: &context,
                history,
                queries,
            };
            serve_reader(&shared, work)
        },
    );
    works
}
