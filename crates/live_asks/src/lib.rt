//! What a reader beside a run asks, line after line, and what it is answered with.
//!
//! The contract for the layer above is that of [`next_ask`]: over the lines of an [`AskReader`] it
//! gives item after item, an ask, a fault or a line that is too long, and at last the end. Whatever
//! was read, the items so far and that end are tied to the bytes of the asks (`specs/Items`,
//! `specs/Ends`). What an item is answered with is said by `specs/Answers`, and how the text of the
//! answers stands on the replies by `specs/Ends`. [`refusal_of_fault`] and [`refusal_of_long`] write
//! the answers to what is no ask. No answer is kept: a list of them stands in clauses alone.
//!
//! Each line is read once, in the reader's buffer. An item costs its line.
#![tactic(auto)]

mod ends;
mod item;
mod laws;
mod next;
mod reader;
mod refusal;

pub use ends::ReaderEnd;
pub use item::ReaderItem;
pub use laws::{asks_are_a_session, lines_ask_by_parts, live_examples};
pub use next::next_ask;
pub use reader::{AskReader, ReaderOutcome, new_ask_reader};
pub use refusal::{refusal_of_fault, refusal_of_long};
