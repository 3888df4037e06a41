//! Laws of the definitions. The functions do nothing: their contracts are the laws.

ghost use Rattle.generated_run.specs.Laws.{OneSummary, SaidExample, SummaryExample};

use answer_view::views_are_one;

/// A history has one summary of what is said.
pub fn one_summary()
    ensures { OneSummary }
{
    views_are_one(); // called for its clause
}

/// The lines of a summary, written out.
pub fn summary_example()
    ensures { SummaryExample }
{}

/// Objects that stayed and one that left, and in which order they say what they say.
pub fn said_example()
    ensures { SaidExample }
{}
