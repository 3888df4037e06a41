//! The bindings of joins, and their events.
//!
//! A binding gives each variable of a join a name, such that each atom's pair is an answer of its
//! query. [`Joins`] keeps the pairs of each query; [`Joins::apply`] takes the events of an entry
//! and answers which bindings are lost and which are gained, in order and each once. [`join_text`]
//! and [`push_join_lines`] write them. The contract for the layer above: from one state to the next
//! the events are exactly the difference of the bindings ([`joins_hold_bindings`] for a whole
//! history). If the queries are accepted, these events exist from each history to each other, and
//! they are one list ([`accepted_queries_have_join_events`]). A run takes the changes of its joins
//! from here.
//!
//! A binding names every variable, so it fixes the pair of each atom, and is lost or gained exactly
//! where one of these pairs is ([`changes_are_touched`]). So nothing is counted: for each event and
//! each atom of its query the search begins at the event's pair and takes the other atoms one by
//! one, next always one with the fewest ends that aren't known yet. The pairs of a query are kept
//! by source and by target, in maps whose hash has keys that a stranger who chooses the names can't
//! foresee. An atom with both ends known is two look-ups; one with one end known is a look-up and
//! as many steps as pairs are found. Where other atoms have the variable at its other end too, the
//! vertices that stand in the columns of both are kept, and these are looked up where they are
//! fewer than the pairs: a semi-join, one step ahead. A change of a pair is four look-ups, and some
//! for each pair of such columns. So an event costs what it changes, and what partial bindings
//! through its pair come to nothing; an atom that shares no variable with the others goes through
//! all pairs of its query.
#![tactic(auto)]

mod binding;
mod change;
mod columns;
mod event;
mod extension;
mod fault;
mod found;
mod joins;
mod laws;
mod overlap;
mod pairs;
mod partial;
mod plan;
mod query_pairs;
mod rows;
mod text;
mod through;
mod touched;
mod vertex;
mod vertex_set;

pub use binding::Binding;
pub use event::JoinEvent;
pub use fault::ApplyFault;
pub use joins::Joins;
pub use laws::{
    accepted_queries_have_join_events, binding_examples, bindings_hold, changes_are_touched,
    events_lead_on, joins_hold_bindings, text_examples, through_is_touched,
};
pub use text::{join_text, push_join_lines};
