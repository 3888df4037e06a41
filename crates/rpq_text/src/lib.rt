//! The texts of a run, as values: the block of an entry, the line of a verdict up to the verdict,
//! and the lines on errors; what they speak of, which is why a run doesn't begin and which of its
//! sinks fails; and the statuses of that and of the ends of streams and readers.
//!
//! Nothing here reads or writes. The laws of all these texts are here.
#![tactic(auto)]

mod block;
mod end_status;
mod ends;
mod error_lines;
mod laws;
pub mod status;
mod verdict_lines;

pub use block::{block_text, make_block, make_blocks, name_of};
pub use end_status::{first_status, run_status, status_of_end, status_of_reader};
pub use ends::{SinkName, StartFault, Which};
pub use error_lines::{
    Line, ask_fault_line, end_line, expr_line, file_line, joins_fault_line, line_of, memory_line,
    not_contained_front, opening_line, query_line, read_line, reader_line, write_line,
};
pub use laws::{
    changes_are_in_order, error_line_examples, every_history_has_a_text, fault_line_examples,
    latest_is_found, least_are_shortest, limits_are_these, line_examples, one_verdict_text,
    start_lines_tell_faults, status_examples, verdict_example, without_paths_one_text,
};
pub use verdict_lines::verdict_front;
