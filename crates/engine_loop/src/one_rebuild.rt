//! The rebuild that a run has for want of memory.

ghost use Rattle.std.specs.Prelude.{◌≡◌, true, false, OnOk, OnErr};

use rpq_base::Memory;

/// The rebuild of the engine that a run has for want of memory: one and no more, so that a run
/// doesn't rebuild with each entry where memory has run out for good.
#[derive(Drop)]
pub struct OneRebuild {
    spent: bool,
}

impl OneRebuild {
    /// There was none yet.
    pub fn new() -> OneRebuild
        ensures { result.spent ≡ false }
    {
        OneRebuild { spent: false }
    }

    /// Takes it for this want of memory, which is the error where it was taken before.
    pub fn take(&mut self, memory: Memory) -> Result<(), Memory>
        ensures first { OnOk result (self.old.spent ≡ false) }
        ensures later { OnErr result (self.old.spent ≡ true) }
        ensures spent { self.new.spent ≡ true }
    {
        if self.spent {
            return Err(memory);
        }
        self.spent = true;
        Ok(())
    }
}
