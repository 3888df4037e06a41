//! Laws of answers, for each language: a query definition is one, that of its expression. The
//! functions compute nothing: their contracts are the laws, and a law that rests on one of the
//! layer below calls it.

ghost use Rattle.std.specs.Prelude.{◌≡◌, ◌↔◌, IsTrue};
ghost use Rattle.rpq_model.specs.declared.mode.Mode.{Mode};
ghost use Rattle.rpq_model.specs.AnswerLaws.{AnswersAreOne, HistoriesHaveAnswers, UntilIsOne};
ghost use Rattle.rpq_model.specs.AnswerLaws.{TickMovesTheClock, EmptyWordBringsNoPair};
ghost use Rattle.rpq_model.specs.AnswerLaws.{SimpleAnswersAreApart, MoreEdgesJoinMore};
ghost use Rattle.rpq_model.specs.AnswerLaws.{LaterAnswersLess, LastsBelowItsEnd, AnswersEnd};
ghost use Rattle.rpq_model.specs.AnswerLaws.{EndsAreDeadlines, EndedAnswersAreOne};
ghost use Rattle.rpq_model.specs.AnswerLaws.{EndedAnswersAreAnswers};

use crate::mode::Mode;
use path_syntax::{Language, nullable_has_empty_word};
use rpq_base::same_is_equal;

/// A query has at most one list of answers at a clock.
pub fn answers_are_one<L: Language>(language: &L)
    ensures { AnswersAreOne (L.contains language.now) }
{}

/// A query that takes all paths has a list of answers over each history.
pub fn histories_have_answers()
    ensures { HistoriesHaveAnswers }
{
    nullable_has_empty_word()
}

/// A pair stops being an answer at one clock at most.
pub fn until_is_one<L: Language>(language: &L)
    ensures { UntilIsOne (L.contains language.now) }
{}

/// A tick moves the clock and nothing else.
pub fn tick_moves_the_clock<L: Language>(language: &L)
    ensures { TickMovesTheClock (L.contains language.now) }
{}

/// The empty word brings no pair: a language with the same other words gives the same answers.
pub fn empty_word_brings_no_pair<L: Language, M: Language>(language: &L, other: &M)
    ensures { EmptyWordBringsNoPair (L.contains language.now) (M.contains other.now) }
{}

/// An answer of a simple query has two vertices.
pub fn simple_answers_are_apart<L: Language>(language: &L)
    ensures { SimpleAnswersAreApart (L.contains language.now) }
{}

/// More edges join more, so answers depend on the set of live edges alone.
pub fn more_edges_join_more<L: Language>(language: &L)
    ensures { MoreEdgesJoinMore (L.contains language.now) }
{}

/// A later clock answers less.
pub fn later_answers_less<L: Language>(language: &L)
    ensures { LaterAnswersLess (L.contains language.now) }
{
    same_is_equal()
}

/// From the clock of the history on, an answer lasts exactly below its end.
pub fn lasts_below_its_end<L: Language>(language: &L)
    ensures { LastsBelowItsEnd (L.contains language.now) }
{
    same_is_equal()
}

/// Each answer ends: it can't be that no time is its end.
pub fn answers_end<L: Language>(language: &L)
    ensures { AnswersEnd (L.contains language.now) }
{
    same_is_equal()
}

/// An end is the deadline of an entry that is live at the clock of the history.
pub fn ends_are_deadlines<L: Language>(language: &L)
    ensures { EndsAreDeadlines (L.contains language.now) }
{
    same_is_equal()
}

/// A query has at most one list of its answers with their ends.
pub fn ended_answers_are_one<L: Language>(language: &L)
    ensures { EndedAnswersAreOne (L.contains language.now) }
{}

/// The pairs of the answers with their ends are exactly the answers.
pub fn ended_answers_are_answers<L: Language>(language: &L)
    ensures { EndedAnswersAreAnswers (L.contains language.now) }
{
    same_is_equal()
}

/// Modes are equal exactly where they are the same one, and a clone of a mode is that mode.
pub fn modes_are_told_apart()
    ensures equality { (first second : Mode) →
        IsTrue (⟦<Mode as PartialEq>⟧.eq first second) ↔ (first ≡ second) }
    ensures clones { (mode copy : Mode) → ⟦<Mode as Clone>⟧.is_clone mode copy → copy ≡ mode }
{}
