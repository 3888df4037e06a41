//! Verdicts.

use rpq_base::{Memory, TryClone, Word};

/// Whether a language has the property of containment.
#[derive(Debug, Drop)]
pub enum Verdict {
    /// From each of its words a part may be left out, if what stays isn't empty.
    Yes,
    /// The word `p q w` is in the language, and `p w`, which isn't empty, is not. Of all such words
    /// these have the least `p`, then the least `q` beside it, then the least `w` beside both.
    /// Words are ordered by their lengths, and of one length label by label.
    No { p: Word, q: Word, w: Word },
}

impl TryClone for Verdict {
    fn copy(&self) -> Result<Verdict, Memory> {
        match self {
            Verdict::Yes => Ok(Verdict::Yes),
            Verdict::No { p, q, w } => Ok(Verdict::No {
                p: p.copy()?,
                q: q.copy()?,
                w: w.copy()?,
            }),
        }
    }
}
