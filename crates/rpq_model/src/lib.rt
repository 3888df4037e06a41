//! What the answers and the events of a path query are, as definitions and laws.
//!
//! The definitions in `specs/` are stated once, over path queries: a language given as a predicate
//! on words, the paths that a query takes, and its window. A query definition means the path query
//! whose language is that of its expression. The layer above uses them, and the laws here.
//!
//! An insert is seen while its time is in the window. It may have an end of its own, as a lease
//! has: then it is seen only before that time, which isn't rounded to the slide of the window.
//!
//! Of what evaluations share, [`clock`] and [`live_entries`] read the whole history. The crate
//! `plain_evaluator` finds answers, ends and events from scratch, by these definitions alone.
#![tactic(auto)]

mod answer_laws;
mod ended;
mod event_laws;
mod live;
mod mode;
mod own_end_laws;
mod query;
mod window;
mod window_laws;

pub use answer_laws::{
    answers_are_one, answers_end, empty_word_brings_no_pair, ended_answers_are_answers,
    ended_answers_are_one, ends_are_deadlines, histories_have_answers, lasts_below_its_end,
    later_answers_less, modes_are_told_apart, more_edges_join_more, simple_answers_are_apart,
    tick_moves_the_clock, until_is_one,
};
pub use ended::Ended;
pub use event_laws::{
    all_events_are_one, each_has_one_list, each_held_is_answers, entry_events_are_one,
    events_are_apart, events_are_changes, events_are_one, events_grow, events_have_fronts,
    held_is_answers, held_step,
};
pub use live::{Live, inserted_edges, live_entries};
pub use mode::Mode;
pub use own_end_laws::{
    early_end_never_lives, end_beyond_the_window, inserts_have_deadlines, later_deadline_decides,
    live_below_its_end, tick_at_the_end,
};
pub use query::{QueryDef, find_query, place_named};
pub use window::{Window, clock, own_end};
pub use window_laws::{
    delete_takes_all_before, edges_by_places, last_insert_is_seen, later_sees_less,
    live_below_deadline, live_by_places, live_in_order, one_entry_more, times_have_deadlines,
};
