//! Tuples that are generated, to try rpq and a machine without any file.
//!
//! The tuples are drawn by a linear congruence: each seed gives the next one, and three of them
//! make a tuple. The contract for the layer above: [`generated`] answers exactly the tuple at a
//! position, made with the seed before it, and the seed before the next tuple. The laws say what
//! the history of the first tuples is, with one tuple more and as a whole: each entry is of stream
//! 1, has its position as its time, and names an edge that a line could name.
//! A call takes a few steps, and no memory of its own: all its names are short.
#![tactic(auto)]

mod generator;
mod laws;

pub use generator::generated;
pub use laws::{
    generated_tuples_are_plain, history_is_of_first_stream, history_takes_one_more,
    seeds_are_small, seeds_go_on, tuples_by_draws, worked_tuples,
};
