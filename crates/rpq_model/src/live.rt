//! The live entries of a history.

ghost use Rattle.std.specs.Prelude.{◌≡◌, ◌||◌, List, map, OnOk, IfOk};
ghost use Rattle.std.specs.BTreeSet.{contains};
ghost use Rattle.rpq_base.specs.declared.data.Entry.{Entry};
ghost use Rattle.rpq_model.specs.Window.{deletes, is_deleted, is_live, inserted_edges};
ghost use Rattle.rpq_model.specs.Window.{live_entries};
ghost use Rattle.rpq_model.specs.Live.{placed_entry};
ghost use Rattle.rpq_model.specs.Deleted.{EdgeKey, edge_of, key_cmp, HoldsEdges};

use crate::window::{Window, is_seen};
use rpq_base::{Act, Edge, Entry, Label, Memory, Name};
use std::alloc::Global;
use std::collections::BTreeSet;

/// An entry that is live, and its place in its history, from 0.
#[derive(Debug, Drop)]
pub struct Live<'a> {
    pub place: usize,
    pub entry: &'a Entry,
}

/// An edge by its parts, which have orders.
type EdgeKey<'a> = (&'a Name, &'a Label, &'a Name);

fn key_of(edge: &Edge) -> EdgeKey<'_>
    ensures { edge_of result ≡ edge.now }
{
    (&edge.from, &edge.label, &edge.to)
}

/// Adds the edge that the entry deletes, if it deletes one.
fn add_deleted<'a>(deleted: &mut BTreeSet<EdgeKey<'a>>, entry: &'a Entry) -> Result<(), Memory>
    ensures { OnOk result ((key : EdgeKey) →
        contains key_cmp deleted.new key
        ≡ (deletes (edge_of key) entry.now.tuple.act || contains key_cmp deleted.old key)) }
{
    if let Act::Delete(edge) = &entry.tuple.act {
        deleted.insert(key_of(edge))?;
    }
    Ok(())
}

/// Whether an entry is live at this clock, where later entries delete these edges.
fn is_live<'a>(window: Window, now: u64, entry: &'a Entry, deleted: &BTreeSet<EdgeKey<'a>>) -> bool
    ensures { (later : List Entry) → HoldsEdges deleted.now (is_deleted later) →
        result ≡ is_live window now entry.now later }
{
    match &entry.tuple.act {
        Act::Insert { edge, until } => {
            is_seen(window, now, entry.tuple.time, *until) && !deleted.contains(&key_of(edge))
        }
        Act::Delete(_) | Act::Tick => false,
    }
}

/// The entries that are live at a clock, with their places, in order: those that insert an edge
/// whose time is in the window, whose own end, if it has one, is above the clock, and which no
/// later entry deletes. The clock may be any number.
///
/// The entries are gone through once, from the last to the first, with the set of the edges deleted
/// so far.
pub fn live_entries<'a>(
    alloc: Global,
    window: Window,
    now: u64,
    entries: &'a [Entry],
) -> Result<Vec<Live<'a>>, Memory>
    ensures { IfOk result (λ live.
        map placed_entry live.items ≡ live_entries window now entries.now) }
{
    let mut deleted = BTreeSet::new(alloc);
    let mut live = Vec::new(alloc);
    for place in (0..entries.len()).rev() {
        let entry = &entries[place];
        if is_live(window, now, entry, &deleted) {
            live.push(Live { place, entry })?;
        }
        add_deleted(&mut deleted, entry)?;
    }
    live.reverse();
    Ok(live)
}

/// The edges that live entries insert, in their order. The only error is [`Memory`].
pub fn inserted_edges<'a>(alloc: Global, live: &[Live<'a>]) -> Result<Vec<&'a Edge>, Memory>
    ensures { IfOk result (λ edges.
        map (λ edge. edge.now) edges.items ≡ inserted_edges (map placed_entry live.now)) }
{
    let mut edges = Vec::new(alloc);
    for each in live {
        let entry = each.entry;
        if let Act::Insert { edge, .. } = &entry.tuple.act {
            edges.push(edge)?;
        }
    }
    Ok(edges)
}
