//! What the history of a run is: its lines, which lists of them are legal, and the world of steps
//! that a run goes through, as definitions and laws over plain lists.
//!
//! A history is kept by several threads behind one lock. Each call that changes it adds one line: a
//! [`Call`], with the tuple of an append. The engine has the number 0, and the streams have the
//! numbers from 1 on. `specs/Lines` says what lines mean, `specs/Legal` which lists of them are
//! legal, and `specs/Follow` which line may come next: that is what each call has to see before it
//! adds its line, and [`legal_by_lines`] says that it comes to the same.
//!
//! The world of `specs/World` is all that the streams, the engine and the readers have done, and
//! `specs/Steps` says what they may do. [`core_safe`] says that whatever they do, in any order, the
//! blocks that are emitted are those of the entries, and each reader gets the answers at a position
//! that never falls. The layers above keep one list of lines, and show that each of their calls is
//! one of these steps.
#![tactic(auto)]

mod legal_laws;
mod line;
mod world_laws;

pub use legal_laws::{
    calls_are_told_apart, fronts_are_legal, legal_by_lines, legal_examples, legal_is_sound,
    line_examples, lines_are_joined, waits_end,
};
pub use line::{Call, CallAct, Line, Why};
pub use world_laws::{core_safe, run_example, shut_is_final, steps_are_calls};
