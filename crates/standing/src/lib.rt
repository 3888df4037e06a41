//! Standing objects: what an embedding program hands to a run so as to act on events.
//!
//! An object says which queries it wants, is told of their events one after another, says
//! something of itself at the end, and may leave ([`Standing`]). [`Tally`] counts, [`Roll`] keeps
//! all that it heard, and [`Tail`] keeps the last events; a program brings its own to send an
//! alert or to write a file. A [`Circle`] tells its members of events and sets those apart that
//! left.
//! The contract for the layer above: an object is told of each event of the queries that it wants,
//! once and in order, until it leaves, and of no other (`specs/Stood`). Where memory runs out, an
//! object has heard a front of them.
//! A telling takes a step for each member, one more for each behind a member that leaves, and what
//! the members take; it takes no memory itself.
#![tactic(auto)]

mod circle;
mod counter;
mod laws;
mod object;
mod roll;
mod tail;
mod tally;

pub use circle::Circle;
pub use laws::{counting_examples, none_gone_stays, objects_stand, text_examples};
pub use object::{Standing, Stay};
pub use roll::Roll;
pub use tail::{AtMost, LastEvents, Tail};
pub use tally::Tally;
