//! A lock that is taken in turn, whose contracts tell each thread what it may rely on.
//!
//! A value under the lock ([`Kept`]) has lines, of which each names the [`Pass`] that added it, and
//! a fixed part. Each thread has a pass. It takes the value by [`Turns::take`], adds lines of its
//! own, and gives the value back by [`Turns::give`]. The contract for the layer above: there is one
//! list of lines, which only grows. What a pass has seen stays its beginning, and of the pass's own
//! lines it has just those that the pass added, whatever the other threads do meanwhile. So a
//! thread that learned something of a beginning, or of its own lines, still knows it in each later
//! turn, and [`Turns::close`] tells it of the value at the end.
//!
//! It is a ticket lock over the words of an `atomic_table`: whoever wants a turn draws the next
//! ticket, and is served once as many turns have ended.
#![tactic(auto)]

mod ends;
mod kept;
mod laws;
mod pass;
mod rule;
mod turns;
mod view;

pub use kept::Kept;
pub use laws::{own_lines_are_all, seen_is_in_order};
pub use pass::Pass;
pub use turns::Turns;
