//! What a seat at the table knows. These types are for the proofs alone: no value of a [`SeatView`]
//! or of its parts is made.
use std::collections::LinkedList;
use std::snapshot::Snapshot;

/// What a pass has seen of the value.
pub struct PassKnowledge<L, F> {
    pub number: u64,
    /// The lines at the end of its last turn.
    pub seen: LinkedList<L>,
    /// The lines that it added.
    pub mine: LinkedList<L>,
    pub fixed: Option<F>,
}

/// Where a seat stands.
pub enum Stage<L> {
    /// It was joined to another.
    Spent,
    Idle,
    /// It has drawn this ticket.
    Waits(u64),
    /// The value is out with it: its ticket, and the lines that it found.
    Served(u64, LinkedList<L>),
}

pub struct SeatView<L, F> {
    pub stage: Stage<L>,
    /// How many seats there are, where this one may make the next, and else 0.
    pub made: u64,
    pub known: PassKnowledge<L, F>,
    /// What the seats knew that were joined to this one.
    pub heard: LinkedList<PassKnowledge<L, F>>,
}

/// What the rule reads of the start.
#[derive(Drop)]
pub struct Start<V> {
    pub value: Snapshot<V>,
    pub passes: u32,
}
