//! One stream's bytes: which tuples they give, and how the stream ends.
//!
//! The contract for the layer above is that of [`next_stream_item`]: over a [`rpq_io::LineReader`]
//! with the limits of a stream it gives item after item, and at last the end. A tuple is an item.
//! By the [`FaultPolicy`] a line that is faulty or too long ends the stream, or it is an item too:
//! a [`FaultReport`] of it. Whatever was read, the items so far and that end are tied to the bytes
//! of the file (`specs/History`). What the bytes of a whole stream give is a function of them
//! (`specs/StreamText`), and [`stream_by_parts`] and [`told_by_lines`] say the same by the stream's
//! lines. How texts are read is `text_items`; a line of a stream gives an item or nothing, or ends
//! it.
#![tactic(auto)]

mod ends;
mod faults;
mod laws;
mod limits;
mod stream;

pub use ends::StreamEnd;
pub use faults::{FaultPolicy, FaultReport, StreamItem};
pub use laws::{
    fault_examples, faultless_is_alike, limit_examples, stream_by_parts, told_by_lines,
};
pub use limits::{BYTE_LIMIT, ENDLESS_BYTE_LIMIT};
pub use stream::next_stream_item;
pub use text_items::LINE_LIMIT;
