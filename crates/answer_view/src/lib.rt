//! The answers of several queries at a position of a history, as readers see them.
//!
//! A [`View`] holds the rows of each query, and never changes: readers share it while the history
//! goes on. Contracts see it as its position, the clock there and, for each query, the list of its
//! answers (`specs/View`); each call reads the answers of one query, in the words of `answer_rows`,
//! and takes no memory. The contract for the layer above is `IsViewOf`: the clock is that of the
//! whole history, and the rows are exactly the answers over it, each with its end. That pins the
//! view ([`views_are_one`]), and
//! the pairs that it holds are the answers ([`rows_hold_answers`]).
#![tactic(auto)]

mod laws;
mod view;

pub use laws::{rows_are_one, rows_hold_answers, views_are_one};
pub use view::View;
