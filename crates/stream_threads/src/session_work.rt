//! The sessions of a run, as their workers are given them and give them back.

ghost use Rattle.std.specs.Prelude.{◌≡◌, ◌≤◌, ◌+◌, ◌-◌, [], false, length, map, All};
ghost use Rattle.std.specs.Vec.{vec_len, vec_capacity};
ghost use Rattle.std.specs.Vec.Iter.{into_iter_items};
ghost use Rattle.ask_text.specs.Ranges.{IsInRange};
ghost use Rattle.stream_threads.specs.Started.{new_passes};
ghost use Rattle.stream_threads.specs.Readers.{AreNewWorks};

use ask_text::{Answered, Ask, Session};
use ghost_list::GhostList;
use std::alloc::Global;
use std::vec::IntoIter;
use stream_history::{History, Pass};

/// A session with the pass of its worker: at first what it asks, later what was answered.
#[derive(Drop)]
pub struct SessionWork {
    /// The number of the session, counted from 1.
    pub number: u32,
    pub pass: Pass,
    /// The asks that weren't taken up yet.
    pub asks: Vec<Ask>,
    pub answers: Vec<Answered>,
    /// Whether memory ran out, so that not all asks were answered.
    pub memory: bool,
    /// The positions of the replies of which the gate was told. Contracts alone read them.
    pub told: GhostList<u64>,
}

/// The sessions with their passes, which are new: the first of those that are left, which are those
/// of the history's readers. The list of them is empty, and has room for them.
pub fn session_works(
    alloc: Global,
    history: &History,
    passes: &mut IntoIter<Pass>,
    sessions: Vec<Session>,
    mut works: Vec<SessionWork>,
) -> Vec<SessionWork>
    requires passes { into_iter_items passes.old ≡ new_passes history.now
        (1 + history.now.terms.streams) history.now.readers }
    requires few { (length sessions.items ≤ 64) × (length sessions.items ≤ history.now.readers) }
    requires asks { All (All (IsInRange (length history.now.terms.queries))) sessions.items }
    requires room { (works.items ≡ []) × (vec_len sessions ≤ vec_capacity works) }
    ensures new { AreNewWorks history.now result.items }
    ensures asks { map (λ work. work.asks.items) result.items ≡ sessions.items }
    ensures many { vec_len result ≡ vec_len sessions }
    ensures passes { into_iter_items passes.new ≡ new_passes history.now
        (1 + history.now.terms.streams + length sessions.items)
        (history.now.readers - length sessions.items) }
{
    let _ = history;
    let mut number = 0;
    for session in sessions {
        let Some(pass) = passes.next() else {
            unreachable!()
        };
        number += 1;
        works.push_reserved(new_work(alloc, number, pass, session));
    }
    works
}

/// A session of which nothing was asked yet.
fn new_work(alloc: Global, number: u32, pass: Pass, session: Session) -> SessionWork
    ensures number { result.number ≡ number }
    ensures pass { result.pass ≡ pass }
    ensures asks { result.asks.items ≡ session }
    ensures answers { result.answers.items ≡ [] }
    ensures memory { result.memory ≡ false }
    ensures told { result.told ≡ [] }
{
    SessionWork {
        number,
        pass,
        asks: session.asks,
        answers: Vec::new(alloc),
        memory: false,
        told: GhostList::new(),
    }
}
