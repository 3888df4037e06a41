//! What a later run needs of an earlier one: the window that it left.
//!
//! A run ends where its history is full or its machine stops. Of what it was fed, a later run needs
//! the tuples that a query still sees, and the clock: [`saved`] gives these, and no others.
//! [`saved_text`] writes them as a stream, line by line, and a [`Then`] of that text and of a
//! stream of its own is what the later run reads.
//!
//! The contract for the layers above is that nobody can tell the saved tuples from the history:
//! whatever entries follow, each query has the same answers with the same ends, and each further
//! entry brings the same events ([`saved_continues`]). What is saved later is the same too, so a
//! history may be saved at any time, and again ([`saved_of_more`]). There are at most as many tuples as the
//! history has entries, their text is read back as these tuples ([`saved_text_is_read`]), and a
//! [`Then`] is a source as any other.
//!
//! Saving goes through the history once, whatever the number of queries, and copies what it gives.
//! [`passed`] copies nothing: it says how many first entries all windows have passed.
#![tactic(auto)]

mod laws;
mod passing;
mod reach;
mod saving;
mod text;
mod then;

pub use laws::{
    saved_continues, saved_example, saved_keeps_the_store, saved_of_more, saved_text_is_read,
};
pub use passing::{passed, seen_count};
pub use saving::saved;
pub use text::{push_saved, saved_text};
pub use then::{NoPrefix, OnePrefix, Prefix, Then};
