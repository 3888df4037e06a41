//! What a run over generated tuples is given, and what it gives.

use query_file::Compiled;
use rpq_base::{Entry, Workers};
use standing::Circle;

/// What a run over generated tuples is given.
#[derive(Drop)]
pub struct Generation {
    /// The queries, in the order of their file.
    pub queries: Vec<Compiled>,
    /// Whether the queries may take edges backwards.
    pub two_way: bool,
    /// How many workers the engine has.
    pub workers: Workers,
    /// How many entries the history may have.
    pub limit: u64,
    /// How many tuples are wanted.
    pub count: u64,
}

/// What a run over generated tuples gives.
#[derive(Drop)]
pub struct GenerationResult<O> {
    /// The entries, in the order in which they were made.
    pub history: Vec<Entry>,
    /// The text of the summary; none where memory ran out.
    pub summary: Option<Vec<u8>>,
    /// The objects that were told of the events, and those of them that left.
    pub circle: Circle<O>,
}
