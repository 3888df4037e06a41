//! The expressions of the query language: what they mean, as the textbook has it, and how they are
//! read and written.
//!
//! An [`Expr`] is a regular expression over labels. Its language is defined in `specs/` by cases,
//! without an automaton, and its texts by a grammar; the layers above rest on these two
//! definitions. [`read_expr`] reads exactly the texts of the grammar that are within the limits,
//! [`write_expr`] writes the one form of an expression without blanks, and [`accepts`] decides
//! whether a word is in the language.
//!
//! [`read_two_way`] reads `^` before a label too, which takes the label backwards. It is the
//! inverse path of SPARQL 1.1, before a label alone: the inverse of a group has no text.
#![tactic(auto)]

mod byte_kind;
mod empty_word;
mod expr;
mod grammar_laws;
mod label_text;
mod language;
mod laws;
mod matcher;
mod read;
mod size;
mod state;
mod write;

pub use empty_word::has_empty_word;
pub use expr::Expr;
pub use grammar_laws::{
    fault_examples, grammar_examples, one_expression, one_outcome, one_way_is_plain,
    short_names_are_short, two_way_examples,
};
pub use label_text::write_word;
pub use language::Language;
pub use laws::{
    each_has_a_word, nullable_has_empty_word, repetitions_by_cases, written_examples,
    written_has_signs, written_is_read_again, written_is_readable, written_is_spelled,
    written_two_way_is_read_again,
};
pub use matcher::accepts;
pub use read::{BadExpr, read_expr, read_two_way};
pub use size::occurrences;
pub use write::write_expr;
