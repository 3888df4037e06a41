//! Laws of lines. The functions do nothing: their contracts are the laws.

ghost use Rattle.std.specs.Prelude.{◌≡◌, ◌↔◌, IsTrue};
ghost use Rattle.history_model.specs.declared.line.Why.{Why};
ghost use Rattle.history_model.specs.declared.line.Call.{Call};
ghost use Rattle.history_model.specs.LegalLaws.{LegalByLines, LegalIsSound, FrontsAreLegal};
ghost use Rattle.history_model.specs.LegalLaws.{WaitsEnd, LinesAreJoined};
ghost use Rattle.history_model.specs.Examples.{LineExamples, LegalExamples};

use crate::line::{Call, Why};

/// Legality goes line by line: no lines are legal, and one line more is legal exactly where the
/// lines before it are and it may follow them.
pub fn legal_by_lines()
    ensures { LegalByLines }
{}

/// Of legal lines, each entry is of a stream, no more is published than appended, and there is one
/// reason at most for a shut. A stream's own lines have its entries, in order, and what the lines
/// of the engine publish is what all do.
pub fn legal_is_sound()
    ensures { LegalIsSound }
{}

/// The lines that begin legal ones are legal. What they publish isn't taken back; after a shut
/// nothing more is appended or published, nor is anything appended after all streams have ended.
pub fn fronts_are_legal()
    ensures { FrontsAreLegal }
{}

/// A wait for the answers over all entries may end where all streams have ended and all entries are
/// published, or after a shut: no position is published later.
pub fn waits_end()
    ensures { WaitsEnd }
{}

/// Lines are told by their calls and their entries, so a history may be kept as these two lists.
pub fn lines_are_joined()
    ensures { LinesAreJoined }
{}

/// Some lines, and what they say.
pub fn line_examples()
    ensures { LineExamples }
{}

/// Some lists of lines that are legal, and some that aren't.
pub fn legal_examples()
    ensures { LegalExamples }
{}

/// Calls are equal exactly where they are the same, and so are reasons; and a clone is what it was
/// made of.
pub fn calls_are_told_apart()
    ensures calls { (first second : Call) →
        IsTrue (⟦<Call as PartialEq>⟧.eq first second) ↔ (first ≡ second) }
    ensures reasons { (first second : Why) →
        IsTrue (⟦<Why as PartialEq>⟧.eq first second) ↔ (first ≡ second) }
    ensures call_clones { (call copy : Call) → ⟦<Call as Clone>⟧.is_clone call copy → copy ≡ call }
    ensures reason_clones { (why copy : Why) → ⟦<Why as Clone>⟧.is_clone why copy → copy ≡ why }
{}
