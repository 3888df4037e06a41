//! Laws of the definitions. The functions do nothing: their contracts are the laws.

ghost use Rattle.tuple_generator.specs.Examples.{WorkedTuples};
ghost use Rattle.tuple_generator.specs.Laws.{SeedsAreSmall, SeedsGoOn, TuplesByDraws};
ghost use Rattle.tuple_generator.specs.Laws.{GeneratedTuplesArePlain, HistoryTakesOneMore};
ghost use Rattle.tuple_generator.specs.Laws.{HistoryIsOfFirstStream};

/// Each seed is below 2^31.
pub fn seeds_are_small()
    ensures { SeedsAreSmall }
{}

/// The first tuple is made with the seed 1, and each other one with the seed that the one before it
/// left.
pub fn seeds_go_on()
    ensures { SeedsGoOn }
{}

/// The numbers that are drawn make the tuples in their order, three for each.
pub fn tuples_by_draws()
    ensures { TuplesByDraws }
{}

/// The first three tuples, the first delete and some more, written out.
pub fn worked_tuples()
    ensures { WorkedTuples }
{}

/// A tuple that is generated has its position as its time, names in form, and a label that points
/// forwards.
pub fn generated_tuples_are_plain()
    ensures { GeneratedTuplesArePlain }
{}

/// The history of no tuples is empty, and that of one tuple more has its entry at the end.
pub fn history_takes_one_more()
    ensures { HistoryTakesOneMore }
{}

/// The history of so many tuples has these as its entries, each of stream 1, plain and in range.
pub fn history_is_of_first_stream()
    ensures { HistoryIsOfFirstStream }
{}
