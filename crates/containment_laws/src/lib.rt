//! What containment is for: laws that tie the property of languages to the answers of queries.
//!
//! `containment_test` decides whether a language has the property; `rpq_model` says which pairs are
//! answers. The laws say that the languages with the property are exactly those for which simple
//! paths do what all paths do, and so what it means that a query for simple paths is taken or
//! refused. Where one is refused, the three words that show why are also the plan of a history over
//! which simple paths miss an answer. A query that is taken has a list of answers over each
//! history, and so each history has the events of such queries.
#![tactic(auto)]

mod laws;

pub use laws::{
    accepted_queries_have_answers, accepted_queries_have_events, contained_answers_agree,
    contained_is_simple, line_examples, simple_answers_from_all, simple_misses_a_pair,
};
