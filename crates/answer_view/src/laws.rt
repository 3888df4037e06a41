//! Laws of the definitions. The functions do nothing: their contracts are the laws, and a law that
//! rests on one of the layers below calls it.

ghost use Rattle.answer_view.specs.Laws.{RowsAreOne, RowsHoldAnswers, ViewsAreOne};

use answer_rows::ends_tell_rows;
use path_syntax::Language;
use rpq_model::answers_end;

/// A query has one list of rows over a history.
pub fn rows_are_one<L: Language>(language: &L)
    ensures { RowsAreOne (L.contains language.now) }
{
    ends_tell_rows()
}

/// The rows of a query over a history hold exactly the pairs that are answers.
pub fn rows_hold_answers<L: Language>(language: &L)
    ensures { RowsHoldAnswers (L.contains language.now) }
{
    answers_end(language)
}

/// Several queries have one view over a history.
pub fn views_are_one()
    ensures { ViewsAreOne }
{
    ends_tell_rows()
}
