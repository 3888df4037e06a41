//! An event by numbers.

/// A change of a query's answers, whose pair is told by the numbers that the names of its vertices
/// have: the pair is gained where `added`, else lost. Queries are numbered from 0.
#[derive(Clone, Copy, Debug, PartialEq, Eq)]
pub struct NumberedEvent {
    pub query: u32,
    pub added: bool,
    /// The number of the name of the vertex from which the path leads.
    pub root: u32,
    /// The number of the name of the vertex to which it leads.
    pub vertex: u32,
}
