//! Queries that walk edges backwards: what their answers and their events are, and how an engine
//! that knows no directions answers them.
//!
//! An inverse label `^a` takes an edge with the label `a` from its target to its source, as an
//! inverse path of SPARQL 1.1 does. So the answers of such a query are those over a history in
//! which each insert and each delete stands with its inverse: the same entry of the edge taken
//! backwards. An engine is fed an entry and then its [`inverse`], and [`net`] makes of the events
//! of both those of the one entry: a pair that only comes and goes between the two brings no event.
//!
//! The laws say what the definitions in `specs/` mean. A query sees each live edge both ways. A
//! query without an inverse label has the answers that it has over the history itself. What an
//! engine answers for an entry and its inverse, netted, is exactly the difference of the two-way
//! answers before and after the entry.
#![tactic(auto)]

mod backwards;
mod laws;
mod netting;

pub use backwards::{doubled, inverse};
pub use laws::{
    all_net_are_two_way, edges_are_seen_both_ways, events_are_differences, net_is_difference,
    net_is_two_way, one_way_same, plain_expressions_have_plain_words, two_way_examples,
};
pub use netting::{net, net_each};
