//! What readers and runs show, checked from scratch: the second opinion of tests.
//!
//! [`plain_view`] makes the view that readers of the queries should see. [`is_shown`] decides
//! whether what is shown is a path for a pair that lasts as long as the answer does. Both go by the
//! definitions alone, and by `plain_evaluator`; no crate of the program stands on this one.
#![tactic(auto)]

mod path_test;
mod shown;
mod view;

pub use shown::is_shown;
pub use view::plain_view;
