//! Laws of the definitions. The functions do nothing: their contracts are the laws.

ghost use Rattle.entry_steps.specs.Laws.{EveryEntryHasAStep};
ghost use Rattle.rpq_text.specs.Examples.{LineExamples};
ghost use Rattle.rpq_text.specs.FaultExamples.{QueryFaultExamples, ExpressionFaultExamples};
ghost use Rattle.rpq_text.specs.FaultExamples.{JoinsFaultExamples, AskFaultExamples};
ghost use Rattle.rpq_text.specs.FaultExamples.{LineFaultExamples};
ghost use Rattle.rpq_text.specs.FaultTexts.{StartLinesTellFaults};
ghost use Rattle.rpq_text.specs.Laws.{EveryHistoryHasAText, OneVerdictText, WithoutPathsOneText};
ghost use Rattle.rpq_text.specs.Laws.{LimitsAreThese};
ghost use Rattle.rpq_text.specs.Orders.{ChangesAreInOrder, LatestIsFound, LeastAreShortest};
ghost use Rattle.rpq_text.specs.Orders.{WordOrderExamples};
ghost use Rattle.rpq_text.specs.StatusExamples.{StartStatuses, EndStatuses, ReaderStatuses};
ghost use Rattle.rpq_text.specs.StatusExamples.{StatusOrder, StartLines, EndLines, ReaderLines};
ghost use Rattle.rpq_text.specs.StatusExamples.{LinesInOrder};
ghost use Rattle.rpq_text.specs.VerdictExample.{VerdictExample};

use entry_steps::every_entry_has_a_step;
use join_bindings::accepted_queries_have_join_events;
use minimal_dfa::least_has_fewest;
use path_syntax::Language;

/// Each entry brings a step, and so each history has a text, where the queries can be evaluated and
/// the joins are over them.
pub fn every_history_has_a_text()
    ensures step { EveryEntryHasAStep }
    ensures text { EveryHistoryHasAText }
{
    every_entry_has_a_step();
}

/// Where no paths are told, a history has at most one text.
pub fn without_paths_one_text()
    ensures { WithoutPathsOneText }
{
    accepted_queries_have_join_events();
}

/// A query has one verdict line at most, and queries have one text of them.
pub fn one_verdict_text()
    ensures { OneVerdictText }
{
    least_has_fewest();
}

/// Some verdict lines, and some lines on errors.
pub fn line_examples()
    ensures { LineExamples }
{}

/// Each fault of a file and of a stream, as its line on the errors.
pub fn fault_line_examples()
    ensures queries { QueryFaultExamples }
    ensures expressions { ExpressionFaultExamples }
    ensures joins { JoinsFaultExamples }
    ensures asks { AskFaultExamples }
    ensures streams { LineFaultExamples }
{}

/// The line of a run that doesn't begin is the text of its fault behind `rpq: `.
pub fn start_lines_tell_faults()
    ensures { StartLinesTellFaults }
{}

/// The lines of runs that don't begin and of streams and readers by their ends, and in which order
/// those of a run stand.
pub fn error_line_examples()
    ensures start { StartLines }
    ensures ends { EndLines }
    ensures readers { ReaderLines }
    ensures order { LinesInOrder }
{}

/// The statuses of runs that don't begin and of those that began, and which of several counts.
pub fn status_examples()
    ensures start { StartStatuses }
    ensures ends { EndStatuses }
    ensures readers { ReaderStatuses }
    ensures order { StatusOrder }
{}

/// A query for one label, and its verdict line: the start counts as a state.
pub fn verdict_example()
    ensures { VerdictExample }
{}

/// How many bytes a file may have that is read whole, and how many streams and queries there may be.
pub fn limits_are_these()
    ensures { LimitsAreThese }
{}

/// The changes of bindings that an entry brings stand by join, what is lost before what is gained,
/// and then by binding.
pub fn changes_are_in_order()
    ensures { ChangesAreInOrder }
{}

/// Of the live entries of an edge that last as long, the latest is in the path that is told.
pub fn latest_is_found()
    ensures { LatestIsFound }
{}

/// Of the words that show why a language isn't contained, the shortest are told, and of one length
/// the first by their labels.
pub fn least_are_shortest<L: Language>(language: &L)
    ensures shortest { LeastAreShortest (L.contains language.now) }
    ensures words { WordOrderExamples }
{}
