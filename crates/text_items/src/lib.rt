//! The items of a text that is read line by line: what the lines give up to the first that ends the
//! reading.
//!
//! What a line gives is up to a [`LineItems`]: an item, nothing, or an end. The contract for the
//! layer above is that of [`next_item`]: over a [`rpq_io::LineReader`] with the limits of a text it
//! gives item after item, and at last the end. Whatever was read, the items so far and that end are
//! tied to the bytes of the text (`specs/Taken`, `specs/Progress`). What the bytes of a whole text
//! give is a function of them (`specs/Items`), and [`text_by_parts`] says the same by the lines of
//! the text. Each line is read once, in the reader's buffer; of a line that is too long the first
//! bytes are, and the others are passed over.
#![tactic(auto)]

mod ends;
mod laws;
mod limits;
mod lines;
mod next;

pub use ends::TextEnd;
pub use laws::{item_examples, limit_examples, text_by_parts};
pub use limits::{LINE_LIMIT, MOST_BYTES};
pub use lines::LineItems;
pub use next::next_item;
