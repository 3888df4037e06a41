//! What the entries of a history bring: their steps.
//!
//! A step has the events of its entry; where paths are told, for each gained pair a path that shows
//! it; and the lines of the bindings that joins lose and gain. The definitions of `specs/Steps` say
//! it over a history of entries, and the laws say what it comes to: each entry brings a step
//! ([`every_entry_has_a_step`]), and what the steps of the first entries say holds exactly the
//! answers and the bindings over these ([`fronts_hold_answers`], [`fronts_hold_bindings`]).
//!
//! An [`Evaluator`] finds them. It is an engine with what stands beside it: the marks of the live
//! entries, where paths are told, and the joins with the answers of their queries, where there are
//! any. Its one relation for the layers above is `StandsAfter` of `specs/Evaluator`: each entry of
//! the history has brought its step. A front of entries is taken by three calls.
//! [`Evaluator::find_events`] feeds the engine, which is ahead then of what is told (`IsAhead`);
//! [`Evaluator::tell`] makes the marks and the joins follow; and [`Evaluator::steps`] gives the
//! steps, which have the engine's names lent. So an engine for which memory ran out starts anew, and
//! is fed all entries again, while what is told stays where it was. It may be fed others in their
//! place which its queries see alike (`StandsInFor`, [`entries_stand_in`]), as those that are left
//! of a history that forgets, and then takes the position of the history
//! ([`Evaluator::stand_in`]). A new kind of what is told of an entry changes this crate and the
//! texts above it.
//!
//! What it costs beside the engine: without paths and joins nothing for each event, whose names
//! aren't copied; with paths a mark for each entry, and for each addition a look-up for each edge
//! of its path; with joins a search from each pair that comes or goes.
#![tactic(auto)]

mod evaluator;
mod joining;
mod laws;
mod options;
mod room;
mod step;
mod steps;
mod unnamed_steps;

pub use engine_feed::EventLists;
pub use evaluator::Evaluator;
pub use laws::{
    entries_stand_in, every_entry_has_a_step, fronts_hold_answers, fronts_hold_bindings,
    steps_have_join_events, steps_have_the_events,
};
pub use options::Options;
pub use step::Step;
pub use unnamed_steps::{PathsAndJoins, UnnamedSteps};
