//! Laws of the definitions. The functions do nothing: their contracts are the laws.

ghost use Rattle.answer_rows.specs.Laws.{EndsTellRows, EndsAreInRows, EventsAreChanges};
ghost use Rattle.answer_rows.specs.Laws.{EventsAreInOrder, SourcesHaveEnds};

/// Rows in which all pairs have the same ends are the same.
pub fn ends_tell_rows()
    ensures { EndsTellRows }
{}

/// The end of a pair is that of its target in the row of its source.
pub fn ends_are_in_rows()
    ensures { EndsAreInRows }
{}

/// The sources of a vertex are those from which a pair to it has an end, in order and each once.
pub fn sources_have_ends()
    ensures { SourcesHaveEnds }
{}

/// The events between two lists of answers are exactly the pairs that lost their end or got one.
pub fn events_are_changes()
    ensures { EventsAreChanges }
{}

/// The events between two lists of answers are losses and then gains, each in the order of the
/// pairs.
pub fn events_are_in_order()
    ensures { EventsAreInOrder }
{}
