//! The pairs that lists of changes of ends take away or bring.

ghost use Rattle.std.specs.Prelude.{◌≡◌, ◌<◌, ◌↔◌, ◌∷◌, [], length, Contains, IfOk, OnOk};
ghost use Rattle.std.specs.List.Sorted.{IsPermutation, IsSorted, IsStrictlySortedBy};
ghost use Rattle.rpq_base.specs.declared.data.Pair.{Pair};
ghost use Rattle.rpq_base.specs.Order.{pair_cmp};
ghost use Rattle.end_events.specs.Changes.{AreNamed, counts};
ghost use Rattle.end_events.specs.Order.{keyed_cmp, numbered_cmp};
ghost use Rattle.end_events.specs.Pairs.{gives_event, pairs_at};
ghost use Rattle.end_events.specs.Pairs.{AreGiven, AreNumbered, Gathers, IsNumbered};
ghost use Rattle.source_tree.specs.declared.change.Outcome.TheVariants.{Gained, Lost};

use name_table::Names;
use rpq_base::Memory;
use rpq_model::Mode;
use source_tree::{EndChange, Outcome};
use std::alloc::Global;
use std::cmp::Ordering;

/// A pair of vertices by the numbers of their names.
#[derive(Clone, Copy, PartialEq, Eq)]
pub(crate) struct NumberedPair {
    pub root: u32,
    pub vertex: u32,
    /// The beginnings of both names, which are looked up once and mostly tell the order of pairs.
    pub root_key: u64,
    pub vertex_key: u64,
}

/// The pairs whose ends go, and those whose ends come.
#[derive(Drop)]
pub(crate) struct LostAndGained {
    pub lost: Vec<NumberedPair>,
    pub gained: Vec<NumberedPair>,
}

/// The order of the names of two numbers: that of the keys beside them, and where they share one
/// that of all bytes or of the ranks, which aren't looked up where both are one name.
fn name_order(names: &Names, first: u32, first_key: u64, second: u32, second_key: u64) -> Ordering
    ensures { result ≡ keyed_cmp names.now first first_key second second_key }
{
    match first_key.cmp(&second_key) {
        Ordering::Equal if first == second => Ordering::Equal,
        Ordering::Equal => names.compare(first, second),
        other => other,
    }
}

/// The order of two pairs, which is that of their names.
pub(crate) fn pair_order(names: &Names, first: &NumberedPair, second: &NumberedPair) -> Ordering
    ensures { result ≡ numbered_cmp names.now first.now second.now }
{
    let roots = name_order(
        names,
        first.root,
        first.root_key,
        second.root,
        second.root_key,
    );
    match roots {
        Ordering::Equal => name_order(
            names,
            first.vertex,
            first.vertex_key,
            second.vertex,
            second.vertex_key,
        ),
        other => other,
    }
}

/// Whether a pair of these vertices counts in a query of this mode: no simple path ends where it
/// begins.
pub fn counts(mode: Mode, root: u32, vertex: u32) -> bool
    ensures { result ≡ counts mode root vertex }
{
    match mode {
        Mode::Arbitrary => true,
        Mode::Simple => root != vertex,
    }
}

/// Whether the change has this outcome, and its pair counts.
fn gives_event(mode: Mode, outcome: Outcome, each: &EndChange) -> bool
    ensures { result ≡ gives_event mode outcome each.now }
{
    match outcome {
        Outcome::Lost => !each.outcome.is_gain() && counts(mode, each.root, each.vertex),
        Outcome::Gained => each.outcome.is_gain() && counts(mode, each.root, each.vertex),
    }
}

/// The pair of the change.
fn pair_of(names: &Names, each: &EndChange) -> NumberedPair
    requires root { each.now.root < length names.now }
    requires vertex { each.now.vertex < length names.now }
    ensures root { result.root ≡ each.now.root }
    ensures vertex { result.vertex ≡ each.now.vertex }
    ensures numbered { IsNumbered names.now result }
{
    names.keeps_names_apart();
    NumberedPair {
        root: each.root,
        vertex: each.vertex,
        root_key: names.beginning_of(each.root),
        vertex_key: names.beginning_of(each.vertex),
    }
}

/// Adds the pair of the change, where it gives an event.
fn add_pair(
    found: &mut Vec<NumberedPair>,
    mode: Mode,
    outcome: Outcome,
    names: &Names,
    each: &EndChange,
) -> Result<(), Memory>
    requires root { each.now.root < length names.now }
    requires vertex { each.now.vertex < length names.now }
    ensures { OnOk result (Gathers mode outcome names.now (each.now ∷ []) found.old.items
        found.new.items) }
{
    if gives_event(mode, outcome, each) {
        found.push(pair_of(names, each))?;
    }
    Ok(())
}

/// Adds the pairs of which a change gives an event, by one pass over the changes.
fn add_given(
    lost: &mut Vec<NumberedPair>,
    gained: &mut Vec<NumberedPair>,
    mode: Mode,
    names: &Names,
    changes: &[EndChange],
) -> Result<(), Memory>
    requires { AreNamed names.now changes.now }
    ensures lost { OnOk result (Gathers mode Lost names.now changes.now lost.old.items
        lost.new.items) }
    ensures gained { OnOk result (Gathers mode Gained names.now changes.now gained.old.items
        gained.new.items) }
{
    for each in changes {
        add_pair(lost, mode, Outcome::Lost, names, each)?;
        add_pair(gained, mode, Outcome::Gained, names, each)?;
    }
    Ok(())
}

/// How many of the changes have this outcome for a pair that counts.
fn count(mode: Mode, outcome: Outcome, changes: &[EndChange]) -> usize {
    changes
        .iter()
        .filter(|each| gives_event(mode, outcome, each))
        .count()
}

/// A list with room for the pairs that both lists of changes give with this outcome.
fn room_for(
    alloc: Global,
    mode: Mode,
    outcome: Outcome,
    first: &[EndChange],
    second: &[EndChange],
) -> Result<Vec<NumberedPair>, Memory>
    ensures { IfOk result (λ list. list.items ≡ []) }
{
    let count = count(mode, outcome, first).saturating_add(count(mode, outcome, second));
    Ok(Vec::with_capacity(alloc, count)?)
}

/// Puts the pairs in order.
fn sort_pairs(names: &Names, pairs: &mut Vec<NumberedPair>)
    ensures sorted { IsSorted (numbered_cmp names.now) pairs.new.items }
    ensures permutation { IsPermutation pairs.old.items pairs.new.items }
{
    if pairs.len() > 1 {
        pairs.sort_unstable_by(|first, second| pair_order(names, first, second));
    }
}

/// Puts the pairs in order, and leaves out those that stand there twice, which their numbers tell.
fn put_in_order(names: &Names, pairs: &mut Vec<NumberedPair>)
    requires { AreNumbered names.now pairs.old.items }
    ensures sorted { IsStrictlySortedBy pair_cmp (pairs_at names.now pairs.new.items) }
    ensures same { (pair : Pair) → Contains (pairs_at names.now pairs.new.items) pair
        ↔ Contains (pairs_at names.now pairs.old.items) pair }
    ensures numbered { AreNumbered names.now pairs.new.items }
{
    sort_pairs(names, pairs);
    pairs.dedup();
}

/// The pairs of which a change in one of the lists gives an event, in order, each once. Where there
/// are none, nothing is allocated.
pub(crate) fn given_pairs(
    alloc: Global,
    mode: Mode,
    names: &Names,
    first: &[EndChange],
    second: &[EndChange],
) -> Result<LostAndGained, Memory>
    requires first_named { AreNamed names.now first.now }
    requires second_named { AreNamed names.now second.now }
    ensures lost { IfOk result (λ given.
        AreGiven mode Lost names.now first.now second.now given.lost.items) }
    ensures gained { IfOk result (λ given.
        AreGiven mode Gained names.now first.now second.now given.gained.items) }
{
    let mut lost = room_for(alloc, mode, Outcome::Lost, first, second)?;
    let mut gained = room_for(alloc, mode, Outcome::Gained, first, second)?;
    add_given(&mut lost, &mut gained, mode, names, first)?;
    add_given(&mut lost, &mut gained, mode, names, second)?;
    put_in_order(names, &mut lost);
    put_in_order(names, &mut gained);
    Ok(LostAndGained { lost, gained })
}
