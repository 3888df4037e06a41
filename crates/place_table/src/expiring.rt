//! Nodes that leave as the clock comes to their values.

ghost use Rattle.std.specs.Prelude.{◌≡◌, IsOk, OnOk};
ghost use Rattle.place_table.specs.Losses.{AllExpire, AreLostBy};
ghost use Rattle.place_table.specs.Queue.{with_lost};

use crate::gain::Lost;
use crate::noted::drop_or_note;
use crate::spot::Spot;
use crate::table::PlaceTable;
use rpq_base::Memory;

impl PlaceTable {
    /// Takes exactly the nodes out whose value is at most `now`, and makes the list that of their
    /// roots and places, with the values that they had. The only error is [`Memory`], after which
    /// they are out too. Where no node goes, this is one comparison, and else a step in a heap for
    /// each that goes and for each raised one whose value before was at most `now`.
    pub fn expire(&mut self, now: u64, lost: &mut Vec<Lost>) -> Result<(), Memory>
        ensures gone { AllExpire self.old self.new now }
        ensures lost { OnOk result (AreLostBy self.old now lost.new.items) }
        ensures root { self.new.root ≡ self.old.root }
        ensures puts { self.new.puts ≡ self.old.puts }
        ensures marked { self.new.marked ≡ self.old.marked }
    {
        lost.clear();
        // Where memory for the list is lacking, the nodes go all the same.
        let mut outcome = Ok(());
        while let Some(next) = self.dues.next_due(now) {
            let value = drop_or_note(&mut self.places, &mut self.dues, next.item, now);
            outcome = add_lost(outcome, value, lost, next.item);
        }
        outcome
    }
}

/// Adds the loss of a node of this value, where one was lost, unless memory ran out before.
fn add_lost(
    before: Result<(), Memory>,
    value: Option<u64>,
    lost: &mut Vec<Lost>,
    spot: Spot,
) -> Result<(), Memory>
    ensures before { OnOk result (IsOk before) }
    ensures added { OnOk result (lost.new.items ≡ with_lost lost.old.items spot value) }
{
    before?;
    if let Some(value) = value {
        lost.push(Lost {
            root: spot.root,
            id: spot.id,
            before: value,
        })?;
    }
    Ok(())
}
