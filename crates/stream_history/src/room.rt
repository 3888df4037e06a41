//! How many entries a history may have without an answer.

use crate::journal::Journal;
use std::sync::atomic::AtomicU64;
use std::sync::atomic::Ordering::SeqCst;

/// As many entries without an answer leave no room for more.
const ROOM: u64 = 65_536;

/// Stands for the answered entries until the engine begins. So there is room.
const NOT_BEGUN: u64 = u64::MAX;

/// Stands for the answered entries once the history is shut. So there is room.
const SHUT: u64 = u64::MAX - 1;

/// How many entries a history has, and how many of them are answered. It stands beside the lock, so
/// that a stream sees without a turn whether there is room for its next entry.
///
/// The engine alone says how many are answered. Each stream may look before another appends, so
/// there may be as many entries beyond the room as there are other streams.
#[derive(Drop)]
pub(crate) struct Room {
    appended: AtomicU64,
    answered: AtomicU64,
}

impl Room {
    /// The room of a history with no entries, whose engine hasn't begun.
    pub(crate) fn new() -> Room {
        Room {
            appended: AtomicU64::new(0),
            answered: AtomicU64::new(NOT_BEGUN),
        }
    }

    /// Counts the entries, in a turn in which the journal has so many.
    pub(crate) fn count(&self, journal: &Journal) {
        self.appended.store(journal.length(), SeqCst);
    }

    /// The engine begins: no entry is answered yet.
    pub(crate) fn begin(&self) {
        if self.answered.load(SeqCst) == NOT_BEGUN {
            self.answered.store(0, SeqCst);
        }
    }

    /// So many entries are answered. Answers whether half of the room is free then.
    pub(crate) fn answer(&self, count: u64) -> bool {
        self.answered.store(count, SeqCst);
        self.waiting() <= ROOM / 2
    }

    /// No entry comes any more, so nobody is to wait.
    pub(crate) fn shut(&self) {
        self.answered.store(SHUT, SeqCst);
    }

    /// Whether there is room for an entry.
    pub(crate) fn is_free(&self) -> bool {
        self.waiting() < ROOM
    }

    // How many entries wait for an answer of an engine that has begun.
    fn waiting(&self) -> u64 {
        let answered = self.answered.load(SeqCst);
        self.appended.load(SeqCst).saturating_sub(answered)
    }
}
