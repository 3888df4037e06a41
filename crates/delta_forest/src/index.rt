//! The sources of a forest, with what finds those that a change may touch.

use edge_store::EdgeStore;
use source_index::{Dues, Holders};
use source_table::SourceTable;
use source_tree::EndChange;

/// The sources; for each place the roots whose trees have a node there; and for each root a number
/// that no node of its tree has a lower value than.
#[derive(Drop)]
pub(crate) struct Index {
    pub(crate) sources: SourceTable,
    pub(crate) holders: Holders,
    pub(crate) dues: Dues,
}

/// Of the last change, the roots whose trees it touched, and the ends that came or went.
#[derive(Drop)]
pub(crate) struct Findings {
    pub(crate) touched: Vec<u32>,
    pub(crate) log: Vec<EndChange>,
}

/// All that a change changes: the store, the index over it, what was found, and the number of
/// changes.
#[derive(Drop)]
pub(crate) struct ForestState {
    pub(crate) store: EdgeStore,
    pub(crate) index: Index,
    /// Room for the roots whose trees a change may touch; each change fills it anew.
    pub(crate) roots: Vec<u32>,
    pub(crate) found: Findings,
    pub(crate) calls: u64,
}
