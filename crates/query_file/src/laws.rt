//! Laws of the definitions. The functions do nothing: their contracts are the laws.

ghost use Rattle.std.specs.Prelude.{Bool};
ghost use Rattle.query_file.specs.ByParts.{QueriesByParts};
ghost use Rattle.query_file.specs.Examples.{LineExamples, TwoWayExamples};
ghost use Rattle.query_file.specs.FirstField.{OneFirstField};
ghost use Rattle.query_file.specs.InOrder.{FaultsInOrder};
ghost use Rattle.query_file.specs.Laws.{OneOutcome, OneTwoWayOutcome};

/// The bytes of a file give its queries or its first fault, and one thing alone.
pub fn one_outcome()
    ensures { OneOutcome }
{}

/// The bytes of a file give one thing alone where a `^` before a label takes it backwards.
pub fn one_two_way_outcome()
    ensures { OneTwoWayOutcome }
{}

/// A file gives the queries of its lines, or the first fault of a line behind lines without one.
pub fn queries_by_parts()
    ensures { (inverses : Bool) → QueriesByParts inverses }
{}

/// The first fault of a line is the first in the order of the kinds, each of which says what holds
/// where no kind before it applies. A line without a fault has none in that order, and so, where
/// its query takes simple paths, the language has the property of containment.
pub fn faults_in_order()
    ensures { (inverses : Bool) → FaultsInOrder inverses }
{}

/// A line has one first field at most.
pub fn one_first_field()
    ensures { OneFirstField }
{}

/// Some lines with their parts, and some with their faults.
pub fn line_examples()
    ensures { LineExamples }
{}

/// A line and a file with an inverse, which they have with inverses alone.
pub fn two_way_examples()
    ensures { TwoWayExamples }
{}
