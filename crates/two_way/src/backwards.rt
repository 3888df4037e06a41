//! Entries of edges that are taken backwards.

ghost use Rattle.std.specs.Prelude.{◌≡◌, ◌↔◌, ◌∷◌, ◌++◌, IfOk, OnOk, None};
ghost use Rattle.std.specs.Option.{option_to_list};
ghost use Rattle.rpq_base.specs.declared.data.Act.TheVariants.{Tick};
ghost use Rattle.two_way.specs.Doubled.{inverse_edge, inverse_act, inverse_entry};
ghost use Rattle.two_way.specs.Doubled.{doubled_by, doubled};

use rpq_base::{Act, Edge, Entry, Label, Memory, TryClone, Tuple};
use std::alloc::Global;

/// The edge from the target, by the inverse label, to the source.
fn inverse_edge(edge: &Edge) -> Result<Edge, Memory>
    ensures { IfOk result (λ inverse. inverse ≡ inverse_edge edge.now) }
{
    Ok(Edge {
        from: edge.to.copy()?,
        label: Label {
            name: edge.label.name.copy()?,
            back: true,
        },
        to: edge.from.copy()?,
    })
}

/// The same act on the edge taken backwards; none for a tick.
fn inverse_act(act: &Act) -> Result<Option<Act>, Memory>
    ensures { IfOk result (λ inverse. inverse ≡ inverse_act act.now) }
{
    match act {
        Act::Insert { edge, until } => Ok(Some(Act::Insert {
            edge: inverse_edge(edge)?,
            until: *until,
        })),
        Act::Delete(edge) => Ok(Some(Act::Delete(inverse_edge(edge)?))),
        Act::Tick => Ok(None),
    }
}

/// The same entry of the edge taken backwards, or none for a tick: what stands behind the entry in
/// a doubled history. The only error is [`Memory`].
///
/// Stream, time and own end stay; the three names of the edge are copied.
pub fn inverse(entry: &Entry) -> Result<Option<Entry>, Memory>
    ensures inverse { IfOk result (λ inverse. inverse ≡ inverse_entry entry.now) }
    ensures tick { IfOk result (λ inverse. (inverse ≡ None) ↔ (entry.now.tuple.act ≡ Tick)) }
    ensures doubled { IfOk result
        (λ inverse. doubled_by entry.now ≡ entry.now ∷ option_to_list inverse) }
{
    let Some(act) = inverse_act(&entry.tuple.act)? else {
        return Ok(None);
    };
    Ok(Some(Entry {
        stream: entry.stream,
        tuple: Tuple {
            time: entry.tuple.time,
            act,
        },
    }))
}

/// The entries, each with its inverse behind it: what an engine is fed where queries take edges
/// backwards. The only error is [`Memory`]. The entries are copied.
pub fn doubled(alloc: Global, entries: &[Entry]) -> Result<Vec<Entry>, Memory>
    ensures { IfOk result (λ both. both.items ≡ doubled entries.now) }
{
    let mut both = Vec::new(alloc);
    for entry in entries {
        push_both(&mut both, entry)?;
    }
    Ok(both)
}

/// Adds a copy of the entry, and its inverse where it has one.
fn push_both(entries: &mut Vec<Entry>, entry: &Entry) -> Result<(), Memory>
    ensures { OnOk result (entries.new.items ≡ entries.old.items ++ doubled_by entry.now) }
{
    entries.push(entry.copy()?)?;
    if let Some(inverse) = inverse(entry)? {
        entries.push(inverse)?;
    }
    Ok(())
}
