//! The laws. The functions compute nothing: their contracts are the laws.

ghost use Rattle.join_file.specs.ByParts.{JoinsByParts};
ghost use Rattle.join_file.specs.Examples.{JoinExamples};
ghost use Rattle.join_file.specs.FileLaws.{JoinsAreSound};
ghost use Rattle.join_file.specs.Parts.{LineByParts};

/// Exactly which fields of a line are a join, and which fault is told of others.
pub fn join_line_by_parts()
    ensures { LineByParts }
{}

/// A joins file gives the joins of its lines, or the fault of the first line that has one.
pub fn joins_by_parts()
    ensures { JoinsByParts }
{}

/// A joins file gives at most 32 joins. Each is over the queries and has a variable.
pub fn joins_are_sound()
    ensures { JoinsAreSound }
{}

/// Some joins files with what they give.
pub fn join_examples()
    ensures { JoinExamples }
{}
