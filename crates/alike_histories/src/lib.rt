//! Histories that nobody can tell apart.
//!
//! Two histories are seen alike by some queries if they have the same clock, and from there on the
//! same live edges in the window of each query. Then whatever entries follow, each query has the
//! same answers with the same ends, and each further entry brings the same events. So whoever has
//! forgotten what no window sees any more goes on as if nothing was forgotten.
//!
//! The crate has no code but its laws.
#![tactic(auto)]

mod laws;

pub use laws::{
    alike_both_ways, alike_examples, alike_have_answers, alike_have_events, alike_is_equivalence,
    alike_with_more,
};
