//! Answers with their ends.

use rpq_base::Pair;

/// An answer and the time at which it ends.
#[derive(Debug, PartialEq, Eq, Drop)]
pub struct Ended {
    pub pair: Pair,
    pub until: u64,
}
