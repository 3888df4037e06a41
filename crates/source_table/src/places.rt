//! The places of the sources, by their roots.

ghost use Rattle.std.specs.Prelude.{◌≡◌, ◌+◌, ◌<◌, ◌^◌, [], length, IfSome, IsSome, OnOk, OnErr, None, Some};
ghost use Rattle.source_table.specs.Places.{GivesPlace, SamePlaces, place_of};

use rpq_base::Memory;
use std::alloc::Global;

/// For each root the place of its source. Roots are small numbers with few gaps, so this is a plain
/// list: four bytes for each number up to the greatest root, and a look-up hashes nothing.
#[derive(Drop)]
pub(crate) struct SourcePlaces {
    /// For each root 0 where it has no place, and else its place, counted from 1.
    marks: Vec<u32>,
}

/// Makes the list long enough for the root.
fn reach(marks: &mut Vec<u32>, root: u32) -> Result<(), Memory>
    requires small { root + 1 < 2 ^ 32 }
    requires short { length marks.old.items < 2 ^ 32 }
    ensures short { length marks.new.items < 2 ^ 32 }
    ensures long { OnOk result (root < length marks.new.items) }
    ensures same { OnOk result (SamePlaces marks.old.items marks.new.items) }
    ensures unchanged { OnErr result (marks.new.items ≡ marks.old.items) }
{
    if (root as usize) < marks.len() {
        return Ok(());
    }
    marks.resize(root as usize + 1, 0)?;
    Ok(())
}

impl SourcePlaces {
    /// No root has a place. Takes no memory.
    pub(crate) fn new(alloc: Global) -> SourcePlaces
        ensures { result.marks.items ≡ [] }
    {
        SourcePlaces {
            marks: Vec::new(alloc),
        }
    }

    /// The place of the root, or none where it has none.
    pub(crate) fn get(&self, root: u32) -> Option<usize>
        ensures { result ≡ place_of self.now.marks.items root }
    {
        match self.marks.get(root as usize) {
            Some(mark) => (*mark as usize).checked_sub(1),
            None => None,
        }
    }

    /// Gives the root this place. The only error is [`Memory`], after which all is as before.
    pub(crate) fn add(&mut self, root: u32, place: usize) -> Result<(), Memory>
        requires small { root + 1 < 2 ^ 32 }
        requires few { place + 1 < 2 ^ 32 }
        requires short { length self.old.marks.items < 2 ^ 32 }
        ensures short { length self.new.marks.items < 2 ^ 32 }
        ensures given { OnOk result
            (GivesPlace self.old.marks.items self.new.marks.items root (Some place)) }
        ensures unchanged { OnErr result (self.new.marks.items ≡ self.old.marks.items) }
    {
        reach(&mut self.marks, root)?;
        self.marks[root as usize] = place as u32 + 1;
        Ok(())
    }

    /// Takes the place of the root away, where it has one, and answers it.
    pub(crate) fn take(&mut self, root: u32) -> Option<u32>
        ensures was { result ≡ place_of self.old.marks.items root }
        ensures taken { GivesPlace self.old.marks.items self.new.marks.items root None }
        ensures few { IfSome result (λ place. place + 1 < 2 ^ 32) }
        ensures len { length self.new.marks.items ≡ length self.old.marks.items }
    {
        if self.marks.len() <= root as usize {
            return None;
        }
        let mark = self.marks[root as usize];
        self.marks[root as usize] = 0;
        mark.checked_sub(1)
    }

    /// Moves a root that has a place to this one.
    pub(crate) fn move_to(&mut self, root: u32, place: u32)
        requires there { IsSome (place_of self.old.marks.items root) }
        requires few { place + 1 < 2 ^ 32 }
        ensures given { GivesPlace self.old.marks.items self.new.marks.items root (Some place) }
        ensures len { length self.new.marks.items ≡ length self.old.marks.items }
    {
        self.marks[root as usize] = place + 1;
    }

    /// No root has a place any more.
    pub(crate) fn clear(&mut self)
        ensures { self.new.marks.items ≡ [] }
    {
        self.marks.clear();
    }
}
