//! Laws of the definitions. The functions do nothing: their contracts are the laws.

ghost use Rattle.stream_tuples.specs.FaultLaws.{FaultExamples, FaultlessIsAlike, ToldByLines};
ghost use Rattle.stream_tuples.specs.Laws.{LimitExamples, StreamByParts};

/// The tuples of a stream and its end, by its parts: the lines before the first faulty one, and
/// that line.
pub fn stream_by_parts()
    ensures { StreamByParts }
{}

/// The longest line and the longest streams that are read, and those of one byte more.
pub fn limit_examples()
    ensures { LimitExamples }
{}

/// The tuples of a stream whose faulty lines are told apart are those of all its lines, and what is
/// told is told of each of its faulty lines, in order.
pub fn told_by_lines()
    ensures { ToldByLines }
{}

/// A stream without a faulty line is read alike by both policies.
pub fn faultless_is_alike()
    ensures { FaultlessIsAlike }
{}

/// What becomes of a faulty line, and of one that is too long, between two good ones.
pub fn fault_examples()
    ensures { FaultExamples }
{}
