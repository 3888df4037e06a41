//! What an index of best paths tells: laws that tie the bests of a store of edges to the answers of
//! queries and to their ends.
//!
//! The store of a history gives each edge of the window the greatest deadline of its live entries.
//! The best of two vertices at a state of an automaton is the greatest number that all values of
//! some path between them reach, among the paths whose words lead the automaton to that state. The
//! greatest best of a pair over the final states is where the pair stops being an answer. The laws
//! say so by names and by numbers, and say how a store follows its history entry by entry. An
//! engine that keeps such a store, and trees of bests over it, cites [`stores_follow`] for each
//! entry, [`index_tells_answers`] for its answers and [`paths_by_numbers`] for the paths that show
//! them.
#![tactic(auto)]

mod laws;

pub use laws::{
    accepted_answers_end, answers_have_ways, best_by_numbers, best_is_until, best_over_finals,
    by_numbers_steps, histories_have_stores, index_keeps_bests, index_tells_answers,
    paths_by_numbers, store_steps, stores_follow, stores_have_bests,
};
