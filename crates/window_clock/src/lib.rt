//! The clock of a window of time, and the deadlines of what it sees.
//!
//! A window has a size and moves by a slide. Its [`WindowClock`] keeps the greatest time that it
//! was told, and answers the deadline of a time: the clock at which an edge of this time has left the
//! window. An insert may have an end of its own, which then makes its deadline earlier.
#![tactic(auto)]

mod clock;

pub use clock::WindowClock;
