//! Many roots lifted at one place.

ghost use Rattle.std.specs.Prelude.{◌≡◌, ◌≤◌, ◌++◌, ◌∷◌, [], length, OnOk};
ghost use Rattle.delta_tree.specs.Changes.{CanHang};
ghost use Rattle.place_table.specs.Table.{tree_in};
ghost use Rattle.place_table.specs.Lifts.{CanLift, LiftsAll, MarksAtMost, between, brings};
ghost use Rattle.place_table.specs.Lifts.{lifted_gains};
ghost use Rattle.place_table.specs.Raises.{ChangesOneTree, HasNumber};

use crate::gain::Gain;
use crate::table::PlaceTable;
use delta_tree::Try;
use rpq_base::Memory;

impl PlaceTable {
    /// Takes the step in the tree of each root of the gains from place `low` to before `high`: the
    /// root's node at `step.to` gets what the gain brings, at most `width`, where it has less, and
    /// hangs below `step.from` by `step.edge`. Each root that was lifted is added behind the gains,
    /// up to the value that it has now. The place is marked, if there is a gain.
    pub fn lift_all(
        &mut self,
        step: Try,
        width: u64,
        gains: &mut Vec<Gain>,
        low: usize,
        high: usize,
    ) -> Result<(), Memory>
        requires range { (low ≤ high) × (high ≤ length gains.old.items) }
        requires lifts { CanLift self.old step width (between low high gains.old.items) }
        ensures lifts { OnOk result
            (LiftsAll self.old self.new step width (between low high gains.old.items)) }
        ensures gains { OnOk result (gains.new.items ≡ gains.old.items
            ++ lifted_gains self.old step.to width (between low high gains.old.items)) }
        ensures marks { MarksAtMost self.old self.new step.to }
        ensures root { self.new.root ≡ self.old.root }
        ensures counted { self.old.puts ≤ self.new.puts }
    {
        if low == high {
            return Ok(());
        }
        // A root has nothing at a place that isn't one yet, so the first one will be lifted there.
        let number = self.make_place(step.to)?;
        for at in low..high {
            let gain = gains[at];
            self.lift_one(number, step, width, gain, gains)?;
        }
        self.mark(number, step.to)
    }

    /// Takes the step in the tree of one root, and adds it behind the gains if it was lifted. This
    /// is the number of the place of the step's target.
    fn lift_one(
        &mut self,
        number: usize,
        step: Try,
        width: u64,
        gain: Gain,
        gains: &mut Vec<Gain>,
    ) -> Result<(), Memory>
        requires hangs { CanHang (tree_in self.old gain.root) step (brings width gain) }
        requires number { HasNumber self.old step.to number }
        ensures lifts { OnOk result (LiftsAll self.old self.new step width (gain ∷ [])) }
        ensures gains { OnOk result (gains.new.items
            ≡ gains.old.items ++ lifted_gains self.old step.to width (gain ∷ [])) }
        ensures number { HasNumber self.new step.to number }
        ensures beside { ChangesOneTree self.old self.new gain.root }
    {
        let value = gain.cap.min(width);
        if let Some(shift) = self.lift_at(number, gain.root, step, value)? {
            gains.push(Gain {
                root: gain.root,
                cap: value,
                before: shift.before,
            })?;
        }
        Ok(())
    }
}
