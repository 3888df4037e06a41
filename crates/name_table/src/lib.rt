//! Numbers for names, in the order of their first sight.
//!
//! [`Names`] gives each new name the next number, from 0, and keeps it. The contract for the layers
//! above: contracts see the list of names, in which each stands once; the number of a name is its
//! place. A look-up costs a hash of the name, and a name by its number one index. The hash has keys
//! that a stranger who chooses the names can't foresee. Names get ranks from time to time, by which
//! they are put in order without reading them. For those that have none yet, the first 16 bytes
//! stand beside each name as one number, which mostly tells their order.
#![tactic(auto)]

mod names;
mod ranks;
mod sort_key;

pub use names::Names;
