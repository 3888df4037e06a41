//! What the workers of a run share.

use rpq_io::Context;
use rpq_model::QueryDef;
use stream_history::History;

/// What the workers of a run share: the runtime, the allocator and the gate that they pass, the
/// history, and the definitions of its queries.
#[derive(Drop)]
pub struct RunParts<'a, R, G> {
    pub context: &'a Context<'a, R, G>,
    pub history: &'a History,
    pub queries: &'a [QueryDef],
}
