//! Requests as lines: what the programs have in common that ask the libraries, so that what these
//! answer can be compared with what it should be.
//!
//! A request is a line of its own: a keyword, and what is asked about. One line is printed for
//! each. A line of another first word, as one that begins with `#`, is printed as it stands.
//!
//! Fields end with a space, and the last one of a request with its line. A field stands for
//! bytes: `%` and two hexadecimal digits for one byte, and each other byte for itself. In what is
//! printed the bytes that can't be seen, and `%`, stand so too.
//!
//! The words of a command, and the tuples of a stream, are one field with `;` between them: such a
//! byte in one of them stands as `%3B`.
//!
//! The contract for the programs is that each call is safe and ends, and that what a field stands
//! for has at most 2^24 bytes: so it may be read as an expression. All lines are kept in memory
//! until the input ends, and each byte of them is looked at a few times.
#![tactic(auto)]

mod fields;
mod lines;
mod output;
mod tuples;
mod words;

pub use fields::{Fields, decoded, parts};
pub use lines::answer_lines;
pub use output::Output;
pub use tuples::{entries_of, put_events, put_pair};
pub use words::words_of;
