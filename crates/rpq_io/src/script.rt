//! The calls of an object in memory, and which of them fail.

ghost use Rattle.std.specs.Prelude.{◌≡◌, IfOk};
ghost use Rattle.rpq_io.specs.Script.{new_script, next_fails, after_call};

use std::alloc::{AllocError, Global};
use std::marker::Model;

/// Counts the calls of an object, from 1 and up to 2^64 - 1, and knows the numbers of those that
/// are to fail.
#[derive(Drop)]
pub struct Script {
    fails: Vec<u64>,
    call_count: u64,
}

impl Model for Script {
    ghost use Rattle.rpq_io.specs.Script.{CallScript};

    ghost Value = { CallScript };

    ghost view = { λ script. record {
      fails = script.fails.items;
      call_count = script.call_count;
    } };
}

impl Script {
    /// No call yet; those with these numbers are to fail.
    pub fn new(alloc: Global, fails: &[u64]) -> Result<Script, AllocError>
        ensures { IfOk result (λ script. script ≡ new_script fails.now) }
    {
        Ok(Script {
            fails: Vec::from_slice(alloc, fails)?,
            call_count: 0,
        })
    }

    /// Counts a call, and says whether it is to fail.
    pub fn next_fails(&mut self) -> bool
        ensures listed { result ≡ next_fails self.old }
        ensures counted { self.new ≡ after_call self.old }
    {
        self.call_count = self.call_count.saturating_add(1);
        self.fails.iter().any(|number| *number == self.call_count)
    }
}
