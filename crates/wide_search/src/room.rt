//! The room of a search.

use crate::lifts::Lift;
use crate::waiting::Batches;
use place_table::Gain;
use std::alloc::Global;

/// The batches that wait, the gains of which they have parts, and what changed.
#[derive(Drop)]
pub(crate) struct Room {
    pub(crate) batches: Batches,
    pub(crate) gains: Vec<Gain>,
    /// What changed.
    pub(crate) lifts: Vec<Lift>,
}

impl Room {
    /// Room that takes no memory yet.
    pub(crate) fn new(alloc: Global) -> Room {
        Room {
            batches: Batches::new(alloc),
            gains: Vec::new(alloc),
            lifts: Vec::new(alloc),
        }
    }
}
