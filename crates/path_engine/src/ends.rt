//! The numbers of an edge: those of its vertices, and for each query that of its label.

ghost use Rattle.std.specs.Prelude.{◌≡◌, ◌+◌, ◌-◌, ◌*◌, ◌^◌, ◌<◌, ◌≤◌, ℕ, List, length, All};
ghost use Rattle.std.specs.Prelude.{None, Some, IfOk, OnOk, slice_index_or};
ghost use Rattle.rpq_base.specs.declared.data.Act.{Act as ActTaken};
ghost use Rattle.rpq_base.specs.declared.data.Act.TheVariants.{Delete};
ghost use Rattle.rpq_base.specs.declared.data.Entry.{Entry as EntryTaken};
ghost use Rattle.dfa_table.specs.DfaValue.{DfaValue};
ghost use Rattle.name_table.specs.Names.{KeepsNumbers, number_of};
ghost use Rattle.query_file.specs.Compiled.{CompiledValue};
ghost use Rattle.query_index.specs.Answering.{IsEdgeFor};
ghost use Rattle.path_engine.specs.Ends.{AreAllEndsFor, AreAllFirstEnds, AreEndsFor};
ghost use Rattle.path_engine.specs.Ends.{AreEndsForEach, AreEndsOf, AreFirstEndsForEach};
ghost use Rattle.path_engine.specs.Keeping.{BringsNoName};
ghost use Rattle.path_engine.specs.Labels.{IsTableOf};

use crate::labels::{LabelTable, numbers_of};
use edge_store::EdgeId;
use name_table::Names;
use query_index::Vertices;
use rpq_base::{Act, Edge, Entry, Memory, Name};
use std::alloc::Global;

/// The numbers of an edge: those of its two vertices, and for each query the number that its label
/// has in the query's automaton, or none.
#[derive(Clone, Copy)]
pub struct EdgeNumbers<'a> {
    pub from: u32,
    pub to: u32,
    pub labels: &'a [Option<u32>],
}

/// The numbers of each entry's edge, by the names that have numbers once all inserts among the
/// entries have theirs. Keeps count of the names.
pub(crate) fn ends_for_all<'a>(
    alloc: Global,
    names: &mut Names,
    named: &mut u32,
    labels: &'a LabelTable,
    entries: &[Entry],
) -> Result<Vec<Option<EdgeNumbers<'a>>>, Memory>
    requires few { length names.old + 2 * length entries.now < 2 ^ 32 - 3 }
    requires named { named.old ≡ length names.old }
    ensures ends { IfOk result (λ ends. (queries : List CompiledValue) →
        IsTableOf queries labels.now → AreAllEndsFor names.new queries entries.now ends.items) }
    ensures kept { OnOk result (KeepsNumbers names.old names.new) }
    ensures same { OnOk result ((queries : List CompiledValue) → IsTableOf queries labels.now →
        All (λ (entry : EntryTaken). BringsNoName entry.tuple.act queries) entries.now →
        names.new ≡ names.old) }
    ensures grown { OnOk result (length names.new ≤ length names.old + 2 * length entries.now) }
    ensures named { named.new ≡ length names.new }
{
    let first = first_ends(alloc, names, named, labels, entries)?;
    last_ends(alloc, names, labels, entries, &first)
}

/// The numbers of each entry's edge as they are found one after another, where inserts number
/// theirs, and deletes have none yet.
fn first_ends<'a>(
    alloc: Global,
    names: &mut Names,
    named: &mut u32,
    labels: &'a LabelTable,
    entries: &[Entry],
) -> Result<Vec<Option<EdgeNumbers<'a>>>, Memory>
    requires few { length names.old + 2 * length entries.now < 2 ^ 32 - 3 }
    requires named { named.old ≡ length names.old }
    ensures as_many { IfOk result (λ ends. length ends.items ≡ length entries.now) }
    ensures ends { IfOk result (λ ends. (queries : List CompiledValue) →
        IsTableOf queries labels.now → AreAllFirstEnds names.new queries entries.now ends.items) }
    ensures kept { OnOk result (KeepsNumbers names.old names.new) }
    ensures same { OnOk result ((queries : List CompiledValue) → IsTableOf queries labels.now →
        All (λ (entry : EntryTaken). BringsNoName entry.tuple.act queries) entries.now →
        names.new ≡ names.old) }
    ensures grown { OnOk result (length names.new ≤ length names.old + 2 * length entries.now) }
    ensures named { named.new ≡ length names.new }
{
    let mut found = Vec::new(alloc);
    for entry in entries {
        let ends = first_of(names, named, labels, &entry.tuple.act)?;
        found.push(ends)?;
    }
    Ok(found)
}

/// The numbers of an insert's edge, whose vertices are numbered where some query knows its label.
/// Those of a delete are looked up later.
fn first_of<'a>(
    names: &mut Names,
    named: &mut u32,
    labels: &'a LabelTable,
    act: &Act,
) -> Result<Option<EdgeNumbers<'a>>, Memory>
    requires few { length names.old < 2 ^ 32 - 3 }
    requires named { named.old ≡ length names.old }
    ensures ends { IfOk result (λ ends. (queries : List CompiledValue) →
        IsTableOf queries labels.now → AreFirstEndsForEach names.new queries act.now ends) }
    ensures kept { OnOk result (KeepsNumbers names.old names.new) }
    ensures same { OnOk result ((queries : List CompiledValue) → IsTableOf queries labels.now →
        BringsNoName act.now queries → names.new ≡ names.old) }
    ensures grown { OnOk result (length names.new ≤ length names.old + 2) }
    ensures named { named.new ≡ length names.new }
{
    match act {
        Act::Insert { edge, .. } => match numbers_of(labels, &edge.label) {
            Some(numbers) => Ok(Some(number_ends(names, named, edge, numbers)?)),
            None => Ok(None),
        },
        Act::Delete(_) => Ok(None),
        Act::Tick => Ok(None),
    }
}

/// The numbers of each entry's edge, by the names that have numbers now.
fn last_ends<'a>(
    alloc: Global,
    names: &Names,
    labels: &'a LabelTable,
    entries: &[Entry],
    first: &[Option<EdgeNumbers<'a>>],
) -> Result<Vec<Option<EdgeNumbers<'a>>>, Memory>
    requires { length first.now ≡ length entries.now }
    ensures { IfOk result (λ ends. (queries : List CompiledValue) → IsTableOf queries labels.now →
        AreAllFirstEnds names.now queries entries.now first.now →
        AreAllEndsFor names.now queries entries.now ends.items) }
{
    let mut found = Vec::new(alloc);
    for (place, entry) in entries.iter().enumerate() {
        found.push(last_of(names, labels, &entry.tuple.act, first[place]))?;
    }
    Ok(found)
}

/// The numbers of the act's edge, by the names that have numbers now: those of an insert stand, and
/// those of a delete are looked up.
fn last_of<'a>(
    names: &Names,
    labels: &'a LabelTable,
    act: &Act,
    first: Option<EdgeNumbers<'a>>,
) -> Option<EdgeNumbers<'a>>
    ensures { (queries : List CompiledValue) → IsTableOf queries labels.now →
        AreFirstEndsForEach names.now queries act.now first.entry →
        AreEndsForEach names.now queries act.now result }
{
    match act {
        Act::Delete(edge) => find_ends(names, labels, edge),
        Act::Insert { .. } => first,
        Act::Tick => first,
    }
}

/// The numbers of the edge whose label has these. New vertices get theirs now.
fn number_ends<'a>(
    names: &mut Names,
    named: &mut u32,
    edge: &Edge,
    numbers: &'a [Option<u32>],
) -> Result<EdgeNumbers<'a>, Memory>
    requires few { length names.old < 2 ^ 32 - 3 }
    requires named { named.old ≡ length names.old }
    ensures ends { IfOk result (AreEndsOf names.new edge.now numbers.now) }
    ensures kept { OnOk result (KeepsNumbers names.old names.new) }
    ensures grown { OnOk result (length names.new ≤ length names.old + 2) }
    ensures named { named.new ≡ length names.new }
{
    let from = number_name(names, named, &edge.from)?;
    let to = number_name(names, named, &edge.to)?;
    Ok(EdgeNumbers {
        from,
        to,
        labels: numbers,
    })
}

/// The number of the name, which a new one gets now.
fn number_name(names: &mut Names, named: &mut u32, name: &Name) -> Result<u32, Memory>
    requires few { length names.old < 2 ^ 32 - 2 }
    requires named { named.old ≡ length names.old }
    ensures number { IfOk result (λ number. number_of names.new name.now ≡ Some number) }
    ensures kept { OnOk result (KeepsNumbers names.old names.new) }
    ensures grown { OnOk result (length names.new ≤ length names.old + 1) }
    ensures named { named.new ≡ length names.new }
{
    let (number, new) = names.number(name)?;
    if new {
        *named += 1;
    }
    Ok(number)
}

/// The numbers of a deleted edge, where its vertices have some and some query knows its label.
fn find_ends<'a>(names: &Names, labels: &'a LabelTable, edge: &Edge) -> Option<EdgeNumbers<'a>>
    ensures { (queries : List CompiledValue) → IsTableOf queries labels.now →
        AreEndsForEach names.now queries (Delete edge.now) result }
{
    match numbers_of(labels, &edge.label) {
        None => None,
        Some(numbers) => match Vertices::find(names, &edge.from, &edge.to) {
            None => None,
            Some(vertices) => Some(EdgeNumbers {
                from: vertices.from,
                to: vertices.to,
                labels: numbers,
            }),
        },
    }
}

/// The edge by the numbers that it has for the query with this number, where its vertices and its
/// label have some.
pub(crate) fn edge_for(number: u32, ends: Option<EdgeNumbers<'_>>) -> Option<EdgeId>
    ensures { (names : List (List ℕ)) (dfa : DfaValue) (act : ActTaken) →
        AreEndsFor names number dfa act ends.entry → IsEdgeFor names dfa act result }
{
    match ends {
        None => None,
        Some(ends) => match label_for(ends.labels, number) {
            None => None,
            Some(label) => Some(EdgeId {
                from: ends.from,
                label,
                to: ends.to,
            }),
        },
    }
}

/// The number that a label with these numbers has for the query with this number, if it has one.
fn label_for(labels: &[Option<u32>], number: u32) -> Option<u32>
    ensures { result ≡ slice_index_or labels.now number None }
{
    if number as usize >= labels.len() {
        return None;
    }
    labels[number as usize]
}
