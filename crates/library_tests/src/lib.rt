//! Tests of single libraries below [`rpq_run`](../rpq_run), and nothing but tests.
//!
//! They show by worked examples what no clause of these libraries says: that threads that share a
//! lock or a history come to their ends, and that calls answer values where memory is ample. They
//! stand here, above the libraries, so that these are proved once and not once more with a test.
#![tactic(auto)]

#[cfg(test)]
mod history;
#[cfg(test)]
mod journal;
#[cfg(test)]
mod list;
#[cfg(test)]
mod names;
#[cfg(test)]
mod room;
#[cfg(test)]
mod tree;
#[cfg(test)]
mod turns;
