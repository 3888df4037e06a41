//! What lines give.

ghost use Rattle.std.specs.Prelude.{◌≡◌, ◌≤◌, ℕ, length, Ok, IfOk, IfErr, IfSome};
ghost use Rattle.text_items.specs.Limits.{line_limit};
ghost use Rattle.text_items.specs.Reading.{Reading, EndsLine};

use crate::ends::TextEnd;

/// What the lines of a text give. Contracts see the `reading`, which says it of each line by its
/// number, from 1; what `holds` of each item; and whether a line `can_read`.
///
/// A line that gives an end ends the reading there. Where memory runs out the answer is `Memory`.
pub trait LineItems {
    /// What a line gives.
    type Item: Drop;

    /// Why a line ends the reading.
    type End: Copy;

    ghost can_read: { Self → Type 0 };

    ghost reading: { Self → Reading Self.Item Self.End };

    ghost holds: { Self → Self.Item → Type 0 };

    /// What the line with this number gives, which stands without its line feed and its carriage
    /// return.
    fn of_line(&self, number: u64, line: &[u8]) -> Result<Option<Self::Item>, TextEnd<Self::End>>
        requires able { can_read self.now }
        requires short { length line.now ≤ line_limit }
        ensures ok { IfOk result (λ found. (reading self.now).line number line.now ≡ Ok found) }
        ensures err { IfErr result (EndsLine ((reading self.now).line number line.now)) }
        ensures good { IfOk result (λ found. IfSome found (holds self.now)) };

    /// What the line with this number gives, which is too long: these are its first bytes, as many
    /// as a line may have.
    fn of_long_line(
        &self,
        number: u64,
        front: &[u8],
    ) -> Result<Option<Self::Item>, TextEnd<Self::End>>
        requires able { can_read self.now }
        requires short { length front.now ≤ line_limit }
        ensures ok { IfOk result (λ found. (reading self.now).long number front.now ≡ Ok found) }
        ensures err { IfErr result (EndsLine ((reading self.now).long number front.now)) }
        ensures good { IfOk result (λ found. IfSome found (holds self.now)) };
}
