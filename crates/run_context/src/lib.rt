//! What the threads of a run share, from its one call down to the trees: the runtime, the allocator
//! and the gate that each worker passes.
//!
//! The engine rests on nothing else of the world outside. It reads and writes no bytes.
#![tactic(auto)]

mod context;
mod gate;

pub use context::Context;
pub use gate::{Gate, OpenGate, Who};
