//! The text of tuples: a line of a stream is read as the tuple that it gives, and a tuple is
//! written in its one form.
//!
//! The contract for the layer above: [`read_tuple`] answers what the definition of a line's tuple
//! gives, a tuple, nothing or the line's first fault, and [`write_tuple`] the written form, which
//! is read as the same tuple; [`push_tuple`] writes it at the end of a text. The laws say by parts
//! exactly which lines give what. Each call goes over its line a few times, and takes memory for
//! the names alone; a line of more than seven fields, which gives no tuple, takes some for these.
#![tactic(auto)]

mod laws;
mod read;
mod write;

pub use laws::{line_by_parts, written_is_read, written_is_short, written_lines_are_read};
pub use read::{BadLine, read_tuple};
pub use write::{push_tuple, write_tuple};
