//! Words of labels.

use crate::data::Label;
use crate::memory::{Memory, TryClone, copy_all};
use std::marker::Model;

/// A word: a list of labels, which may be empty. Contracts see it as that list.
#[derive(Debug, Drop)]
pub struct Word {
    pub labels: Vec<Label>,
}

impl Model for Word {
    ghost use Rattle.std.specs.Prelude.{List};
    ghost use Rattle.rpq_base.specs.declared.data.Label.{Label};

    ghost Value = { List Label };

    ghost view = { λ word. word.labels.items };
}

impl TryClone for Word {
    fn copy(&self) -> Result<Word, Memory> {
        Ok(Word {
            labels: copy_all(*self.labels.allocator(), self.labels.as_slice())?,
        })
    }
}
