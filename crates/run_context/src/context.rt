//! What the parts of a run share.

use std::alloc::Global;

/// What the parts of a run share: the runtime, the allocator, and the gate that its workers pass.
#[derive(Drop)]
pub struct Context<'a, R, G> {
    pub rt: &'a R,
    pub alloc: Global,
    pub gate: &'a G,
}
