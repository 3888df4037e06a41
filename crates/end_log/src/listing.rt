//! What the nodes that came or went give: ends where one state is final, else those with a final
//! state.

ghost use Rattle.std.specs.Prelude.{◌≡◌, ◌++◌, [], OnOk};
ghost use Rattle.std.specs.List.{cons_option, filter_map};
ghost use Rattle.std.specs.Prelude.{IsPermutation};
ghost use Rattle.dfa_table.specs.DfaValue.{is_final};
ghost use Rattle.place_table.specs.declared.gain.Lost.{Lost as LostMade};
ghost use Rattle.wide_search.specs.declared.lifts.Lift.{Lift as LiftMade};
ghost use Rattle.source_tree.specs.declared.change.Outcome.TheVariants.{Lost as Went, Gained as Came};
ghost use Rattle.source_tree.specs.Product.{AreFinals};
ghost use Rattle.end_log.specs.Moves.{HasFinals, IsInOrder, came, end_with, final_one, went};

use crate::moved::{Moved, came, went};
use dfa_table::Dfa;
use place_table::Lost;
use rpq_base::Memory;
use source_tree::{EndChange, Outcome};
use wide_search::Lift;

/// Adds the item, where there is one.
pub(crate) fn push_some<T: Copy>(items: &mut Vec<T>, item: Option<T>) -> Result<(), Memory>
    ensures { OnOk result (items.new.items ≡ items.old.items ++ cons_option item []) }
{
    if let Some(item) = item {
        items.push(item)?;
    }
    Ok(())
}

/// Whether the state is final, by one index into a table.
pub(crate) fn is_final(dfa: &Dfa, state: u32) -> bool
    ensures { result ≡ is_final dfa.now state }
{
    if state >= dfa.states() {
        return false;
    }
    dfa.is_final(state)
}

/// The final states with which a node can stand are all that there are, since the start isn't final.
pub(crate) fn all_finals(dfa: &Dfa, finals: &[u32])
    requires { AreFinals dfa.now finals.now }
    ensures { HasFinals dfa.now finals.now }
{
    let _ = dfa.states();
}

/// The end that came or went with a node, where the state of this is the one that is final.
fn end_with(state: u32, outcome: Outcome, moved: Option<Moved>) -> Option<EndChange>
    ensures { result ≡ end_with state outcome moved }
{
    match moved {
        Some(moved) if moved.state == state => Some(EndChange {
            root: moved.root,
            vertex: moved.vertex,
            outcome,
        }),
        _ => None,
    }
}

/// The node, where its state is final.
fn final_one(dfa: &Dfa, moved: Option<Moved>) -> Option<Moved>
    ensures { result ≡ final_one dfa.now moved }
{
    match moved {
        Some(moved) if is_final(dfa, moved.state) => Some(moved),
        _ => None,
    }
}

/// Logs the ends that new nodes bring, where this state alone is final.
pub(crate) fn log_came(state: u32, lifts: &[Lift], log: &mut Vec<EndChange>) -> Result<(), Memory>
    ensures { OnOk result (log.new.items ≡ log.old.items
        ++ filter_map (λ (lift : LiftMade). end_with state Came (came lift)) lifts.now) }
{
    for lift in lifts {
        push_some(log, end_with(state, Outcome::Gained, came(*lift)))?;
    }
    Ok(())
}

/// Logs the ends that go with nodes, where this state alone is final.
pub(crate) fn log_went(state: u32, gone: &[Lost], log: &mut Vec<EndChange>) -> Result<(), Memory>
    ensures { OnOk result (log.new.items ≡ log.old.items
        ++ filter_map (λ (lost : LostMade). end_with state Went (went lost)) gone.now) }
{
    for lost in gone {
        push_some(log, end_with(state, Outcome::Lost, went(*lost)))?;
    }
    Ok(())
}

/// Adds the new nodes with a final state.
pub(crate) fn list_came(dfa: &Dfa, lifts: &[Lift], moved: &mut Vec<Moved>) -> Result<(), Memory>
    ensures { OnOk result (moved.new.items ≡ moved.old.items
        ++ filter_map (λ (lift : LiftMade). final_one dfa.now (came lift)) lifts.now) }
{
    for lift in lifts {
        push_some(moved, final_one(dfa, came(*lift)))?;
    }
    Ok(())
}

/// Adds the nodes with a final state that are gone.
pub(crate) fn list_went(dfa: &Dfa, gone: &[Lost], moved: &mut Vec<Moved>) -> Result<(), Memory>
    ensures { OnOk result (moved.new.items ≡ moved.old.items
        ++ filter_map (λ (lost : LostMade). final_one dfa.now (went lost)) gone.now) }
{
    for lost in gone {
        push_some(moved, final_one(dfa, went(*lost)))?;
    }
    Ok(())
}

/// Puts the nodes in the order of their vertices and roots.
pub(crate) fn put_in_order(moved: &mut Vec<Moved>)
    ensures same { IsPermutation moved.old.items moved.new.items }
    ensures order { IsInOrder moved.new.items }
{
    moved.sort_unstable();
}
