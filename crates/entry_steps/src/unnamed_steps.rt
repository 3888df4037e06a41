//! What is told of entries beside their events.

use engine_feed::EventLists;
use path_witness::ShownPath;

/// What is told of an entry beside its events.
#[derive(Drop)]
pub struct PathsAndJoins {
    /// Where paths are told, for each addition in order a path that shows it.
    pub shown: Vec<ShownPath>,
    /// The lines of the bindings that the joins lose and gain, as text.
    pub joined: Vec<u8>,
}

/// What entries bring, whose events by numbers wait for their names.
#[derive(Drop)]
pub struct UnnamedSteps {
    /// The events that the engine found.
    pub found: EventLists,
    /// For each entry what is told beside its events.
    pub beside: Vec<PathsAndJoins>,
}
