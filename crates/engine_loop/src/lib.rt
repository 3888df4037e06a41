//! The engine's loop, whatever its entries come from and whatever takes what they bring.
//!
//! An [`EntrySource`] gives entries front by front: those of a history that threads share, or those
//! that a generator makes. A [`StepSink`] takes the steps of each front: it writes their blocks, or
//! counts them. The contract for the layer above is that of [`answer_all`]: the sink took the step
//! of each entry that the source gave, in order, or for some reason a part of them, as the sink's
//! own relation says (`specs/Loop`, `specs/Sinks`).
//!
//! A source that waits has nothing to hand over: whoever asks for the next front shows a sink that
//! took all that was given. So no body of this crate holds an entry back or asks before the sink
//! took what there was.
//!
//! A source has kept entries that stand in for all that the engine has answered, which are these
//! themselves where it can give them once more. Where memory runs out for the first time while the
//! engine is fed, it is rebuilt over what is kept, and is fed the new entries again. What is told
//! beside the events stays where it is, since it follows only once these are found. Any other want
//! of memory ends the loop.
//!
//! Behind each front a source may give up what no query sees any more of the entries that it keeps
//! for itself, so that a run without end stays within its memory; the engine is then rebuilt over
//! what is left, at the position that it has.
//!
//! [`tell_events`] is for sinks that tell objects of events.
#![tactic(auto)]

mod answering;
mod definitions;
mod finding;
mod one_rebuild;
mod rebuilding;
mod running;
mod sink;
mod source;
mod telling;

pub use definitions::windows_move;
pub use running::answer_all;
pub use sink::StepSink;
pub use source::{AfterShrink, EntrySource};
pub use telling::tell_events;
