//! What every text format is made of, said once: the lines of a text, blank lines and comments, the
//! fields of a line, numbers in digits, and the way through a text line by line ([`read_lines`]).
//! Its one contract for the layer above: each function computes exactly what a definition in
//! `specs/` says, so a format's grammar is written in those words alone.
//! Each call goes over its bytes once, `read_number` twice; only `fields` and `push_decimal` take
//! memory.
#![tactic(auto)]

mod field;
mod laws;
mod lines;
mod numbers;
mod reading;

pub use field::fields;
pub use laws::{
    decimal_is_read, ended_lines_are_the_text, fields_by_runs, joined_fields_are_read,
    lines_are_the_text, return_is_dropped,
};
pub use lines::{is_blank_line, is_comment, line_length, split_line, without_return};
pub use numbers::{NumberFault, push_decimal, read_number};
pub use reading::{TextReader, read_lines};
