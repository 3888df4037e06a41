//! A law of the definitions. The function does nothing: its contract is the law.

ghost use Rattle.rpq_io.specs.Outcomes.{CutsOnlyLines};

/// A line is given only where the first line is no longer than may be, and is whole or the rest
/// before the end. So the outcomes of [`LineReader::next_line`](crate::LineReader::next_line), and
/// those of [`LineReader::lend_line`](crate::LineReader::lend_line), exclude one another, up to a
/// failed read and out of memory.
pub fn only_lines_are_cut()
    ensures { CutsOnlyLines }
{}
