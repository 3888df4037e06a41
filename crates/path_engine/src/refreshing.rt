//! The rows that the indexes keep are brought up to date, those of several queries side by side.

ghost use Rattle.std.specs.Prelude.{◌≡◌, ◌+◌, ◌<◌, ◌≤◌, length};
ghost use Rattle.std.specs.List.{AllZip};
ghost use Rattle.query_index.specs.Answering.{HasHistory};
ghost use Rattle.query_index.specs.Showing.{StandsStill};
ghost use Rattle.path_engine.specs.Showing.{AreRefreshed, CanRefresh, IsPart};

use crate::sharing::threads_take_indexes;
use name_table::Names;
use query_file::Compiled;
use query_index::{Crew, QueryIndex};
use rpq_base::Workers;
use run_context::{Context, Gate, Who};
use std::alloc::Global;
use std::thread;
use std::thread::Threads;

/// Brings the rows that the indexes keep up to date, where several workers are worth it for so many
/// changes. One worker alone would gain nothing by it, and leaves all to whoever asks for the rows.
///
/// An index for which memory runs out keeps no rows. Nothing is told of that here, since whoever
/// asks it for rows has them made then, or is told that there is no memory.
pub(crate) fn refresh_all<R: Threads + Sync, G: Gate>(
    crew: &Crew<'_, R, G>,
    unseen: u64,
    queries: &[Compiled],
    indexes: &mut [QueryIndex],
    names: &Names,
    named: u32,
)
    requires few { length queries.now ≤ 64 }
    requires named { named ≡ length names.now }
    requires as_many { length indexes.old ≡ length queries.now }
    requires indexes { AllZip (λ query index. HasHistory query names.now index)
        queries.now indexes.old }
    ensures { AreRefreshed queries.now names.now 0 indexes.old indexes.new }
{
    let workers = workers_for(crew, unseen);
    if workers.number() > 1 && indexes.len() > 1 {
        let size = part_size(indexes.len(), workers);
        refresh_parts(crew.context, size, queries, indexes, names, named);
    }
}

/// How many workers bring rows up to date after so many changes: one, and a further one for each
/// [`trees_per_worker`](Gate::trees_per_worker) of them, while there are any.
fn workers_for<R, G: Gate>(crew: &Crew<'_, R, G>, unseen: u64) -> Workers {
    let least = crew.context.gate.trees_per_worker().max(1);
    Workers::with_further(unseen as usize / least, crew.workers)
}

/// The size of the parts of so many indexes for so many workers, which is no greater than it must
/// be.
fn part_size(count: usize, workers: Workers) -> usize
    requires { 0 < count }
    ensures { 0 < result }
{
    count.div_ceil(workers.number() as usize)
}

/// Brings the rows of the indexes up to date in parts of this size, each by a worker that passes
/// the gate first.
fn refresh_parts<R: Threads + Sync, G: Gate>(
    context: &Context<'_, R, G>,
    size: usize,
    queries: &[Compiled],
    indexes: &mut [QueryIndex],
    names: &Names,
    named: u32,
)
    requires some { 0 < size }
    requires few { length queries.now ≤ 64 }
    requires named { named ≡ length names.now }
    requires as_many { length indexes.old ≡ length queries.now }
    requires indexes { AllZip (λ query index. HasHistory query names.now index)
        queries.now indexes.old }
    ensures { AreRefreshed queries.now names.now 0 indexes.old indexes.new }
{
    threads_take_indexes(); // called for its clause
    thread::for_each_chunk_mut(
        context.rt,
        indexes,
        size,
        &|start: usize, part: &mut [QueryIndex]|
            requires { IsPart size named queries.now names.now start part.now }
            ensures { AreRefreshed queries.entry.now names.entry.now start part.entry.now
                part.exit.now }
        {
            context.gate.pass(Who::Queries(worker_of(start, size)));
            refresh_part(context.alloc, queries, start, part, names, named);
        },
    );
}

/// The number of the worker, from 1, whose part begins at this place. The parts have this size.
fn worker_of(start: usize, size: usize) -> u32
    requires some { 0 < size }
    requires few { start < 64 }
{
    (start / size) as u32 + 1
}

/// Brings the rows of the indexes of a part up to date, which begins at this place.
fn refresh_part(
    alloc: Global,
    queries: &[Compiled],
    start: usize,
    part: &mut [QueryIndex],
    names: &Names,
    named: u32,
)
    requires named { named ≡ length names.now }
    requires inside { start + length part.old ≤ length queries.now }
    requires ready { CanRefresh queries.now names.now start part.old }
    ensures { AreRefreshed queries.now names.now start part.old part.new }
{
    for (offset, index) in part.iter_mut().enumerate() {
        let query = &queries[start + offset];
        refresh_one(alloc, query, index, names, named);
    }
}

/// Brings the rows that an index keeps up to date, if there is memory for it.
fn refresh_one(alloc: Global, query: &Compiled, index: &mut QueryIndex, names: &Names, named: u32)
    requires named { named ≡ length names.now }
    requires index { HasHistory query.now names.now index.old }
    ensures { StandsStill query.now names.now index.old index.new }
{
    // The index keeps a copy of what it answers, and keeps nothing where it answers an error.
    let _ = index.rows(alloc, query, names, named);
}
