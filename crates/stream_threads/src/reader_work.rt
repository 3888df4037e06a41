//! The readers of a run, as their workers are given them and give them back.

ghost use Rattle.std.specs.Prelude.{◌≡◌, ◌≤◌, [], length, map, All};
ghost use Rattle.std.specs.Vec.{vec_len, vec_capacity};
ghost use Rattle.std.specs.Vec.Iter.{into_iter_items};
ghost use Rattle.stream_history.specs.History.{IsPassOf};
ghost use Rattle.live_asks.specs.Readers.{IsNewAskReader};
ghost use Rattle.stream_threads.specs.Live.{AreNewReaderWorks};

use live_asks::{AskReader, ReaderEnd};
use rpq_io::{LineReader, Sink, Source};
use std::vec::IntoIter;
use stream_history::{History, Pass};

/// A reader with the pass of its worker: at first what it asks, later what is left of it and how it
/// ended.
#[derive(Drop)]
pub struct ReaderWork<S: Source, K> {
    pub pass: Pass,
    /// The lines of its asks that weren't read yet.
    pub reader: LineReader<S>,
    /// Where its replies go.
    pub replies: K,
    /// How it ended. It says nothing before it was served.
    pub end: ReaderEnd,
}

/// The readers with these passes. The list of them is empty, and has room for them.
pub fn reader_works<S: Source + Drop, K: Sink + Drop>(
    history: &History,
    mut passes: IntoIter<Pass>,
    readers: Vec<AskReader<S, K>>,
    mut works: Vec<ReaderWork<S, K>>,
) -> Vec<ReaderWork<S, K>>
    requires passes { All (IsPassOf history.now) (into_iter_items passes) }
    requires given { length (into_iter_items passes) ≡ length readers.items }
    requires new { All (IsNewAskReader S.left S.faults K.written K.faults) readers.items }
    requires room { (works.items ≡ []) × (vec_len readers ≤ vec_capacity works) }
    ensures new { AreNewReaderWorks S.left S.faults K.written K.faults history.now result.items }
    ensures passes { map (λ work. work.pass) result.items ≡ into_iter_items passes }
    ensures sources { map (λ work. work.reader.source) result.items
        ≡ map (λ one. one.reader.source) readers.items }
    ensures many { vec_len result ≡ vec_len readers }
{
    let _ = history;
    for reader in readers {
        let Some(pass) = passes.next() else {
            unreachable!()
        };
        works.push_reserved(new_work(pass, reader));
    }
    works
}

/// A reader that wasn't served yet.
fn new_work<S: Source + Drop, K: Drop>(pass: Pass, asker: AskReader<S, K>) -> ReaderWork<S, K>
    ensures pass { result.pass ≡ pass }
    ensures reader { result.reader ≡ asker.reader }
    ensures replies { result.replies ≡ asker.replies }
{
    let AskReader { reader, replies } = asker;
    ReaderWork {
        pass,
        reader,
        replies,
        end: ReaderEnd::Whole,
    }
}
