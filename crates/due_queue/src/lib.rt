//! Items in the order of their numbers, and memory that is given back.
//!
//! A [`DueQueue`] takes items with numbers and gives them in the order of the numbers, the least
//! first, as far as a clock has come. Contracts see the list of all that is noted, up to its order.
//! An item may be noted several times; whoever uses it drops the ones that are outdated as they
//! come, or all of them where they have become many: by a look through all, or by noting anew what
//! there is, for which no memory is needed. [`room_to_keep`] says which room a collection
//! keeps that has become short, for all layers above.
#![tactic(auto)]

mod due;
mod queue;
mod room;

pub use due::Due;
pub use queue::DueQueue;
pub use room::{give_back, room_to_keep};
