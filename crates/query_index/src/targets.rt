//! The row of a root: the vertices that it reaches, by their names.

ghost use Rattle.std.specs.Prelude.{◌≡◌, ◌∷◌, ◌++◌, ◌<◌, [], length, All, IfOk, OnOk, false};
ghost use Rattle.std.specs.List.Sorted.{IsPermutation, IsSorted};
ghost use Rattle.source_tree.specs.declared.change.Reached.{Reached as ReachedVertex};
ghost use Rattle.query_index.specs.Shown.{HaveNames};
ghost use Rattle.query_index.specs.Showing.{Renews, reached_cmp, target_at, targets_among};

use answer_rows::{Rows, Target, ends_are_in_rows};
use delta_forest::{Forest, Reached};
use end_events::counts;
use name_table::Names;
use rpq_base::{Memory, TryClone};
use rpq_model::Mode;
use std::alloc::Global;

/// Makes the row of a root anew, of all vertices that it reaches.
pub(crate) fn renew(
    alloc: Global,
    rows: &mut Rows,
    mode: Mode,
    forest: &Forest,
    names: &Names,
    root: u32,
) -> Result<(), Memory>
    requires root { root < length names.now }
    requires unbroken { forest.now.broken ≡ false }
    requires named { HaveNames names.now forest.now }
    ensures { OnOk result (Renews mode names.now forest.now root rows.old rows.new) }
{
    // these two are called for their clauses
    ends_are_in_rows();
    names.keeps_names_apart();
    let mut reached = forest.reached(root)?;
    sort_by_names(names, &mut reached);
    let targets = targets_among(alloc, mode, names, root, &reached)?;
    rows.set(names.name_of(root), targets)
}

/// Puts the vertices in the order of their names.
fn sort_by_names(names: &Names, reached: &mut Vec<Reached>)
    ensures sorted { IsSorted (reached_cmp names.now) reached.new.items }
    ensures permutation { IsPermutation reached.old.items reached.new.items }
{
    reached.sort_unstable_by(|first, second| names.compare(first.vertex, second.vertex));
}

/// The targets that the vertices are, in their order, where the pair with the root counts.
fn targets_among(
    alloc: Global,
    mode: Mode,
    names: &Names,
    root: u32,
    reached: &[Reached],
) -> Result<Vec<Target>, Memory>
    requires { All (λ (each : ReachedVertex). each.vertex < length names.now) reached.now }
    ensures { IfOk result (λ targets.
        targets.items ≡ targets_among mode names.now root reached.now) }
{
    let mut targets = Vec::with_capacity(alloc, reached.len())?;
    for each in reached {
        add_target(&mut targets, mode, names, root, each)?;
    }
    Ok(targets)
}

/// Adds the target that a vertex is, where the pair with the root counts.
fn add_target(
    targets: &mut Vec<Target>,
    mode: Mode,
    names: &Names,
    root: u32,
    each: &Reached,
) -> Result<(), Memory>
    requires { each.now.vertex < length names.now }
    ensures { OnOk result (targets.new.items
        ≡ targets.old.items ++ targets_among mode names.now root (each.now ∷ [])) }
{
    if counts(mode, root, each.vertex) {
        targets.push(target_of(names, each)?)?;
    }
    Ok(())
}

/// The target that a vertex is, with a copy of its name.
fn target_of(names: &Names, each: &Reached) -> Result<Target, Memory>
    requires { each.now.vertex < length names.now }
    ensures { IfOk result (λ target. target ≡ target_at names.now each.now) }
{
    Ok(Target {
        to: names.name_of(each.vertex).copy()?,
        until: each.value,
    })
}
