//! What readers ask, and what they are told.
//!
//! An asks file has sessions, and each session its asks, one a line: the line `session` begins a
//! session, and every other line is an ask of the session that began last. Blank lines and comments
//! give nothing and are counted. The contract for the layer above: [`read_asks`] answers exactly
//! what `specs/Asks` says that the bytes give, unless memory runs out: the sessions in their order,
//! or the first line that has a fault, with the first of its faults in the order of [`AskKind`].
//! [`is_ask_line`] and [`read_ask`] read one ask alone, for a reader who has no sessions.
//! [`reply_text`] writes what `specs/Reply` says of an ask and a view, so what a reader is told is
//! the answers at the view's position, which the text names. [`session_text`] puts the replies of a
//! session behind its line (`specs/Replies`).
//!
//! Each line is gone through a few times, and the name of a query compared with those of all, of
//! which there are at most 64. A reply costs its length, and the sources of a vertex a look-up in
//! the row of each source.
#![tactic(auto)]

mod ask;
mod fault;
mod laws;
mod line;
mod read;
mod reply;
mod session;

pub use ask::{Answered, Ask, Session};
pub use fault::{AskFault, AskKind};
pub use laws::{
    ask_examples, asks_by_parts, ended_examples, line_by_parts, one_reply, replies_tell_answers,
    reply_examples, sessions_are_few,
};
pub use line::{is_ask_line, read_ask};
pub use read::read_asks;
pub use reply::reply_text;
pub use session::session_text;
