//! The laws. The functions compute nothing: their contracts are the laws, and a law that rests on
//! one of the layer below calls it.

ghost use Rattle.path_witness.specs.Example.{ShownExample};
ghost use Rattle.path_witness.specs.Keeps.{CutKeeps};
ghost use Rattle.path_witness.specs.Marks.{OneMarkIsEnough};
ghost use Rattle.path_witness.specs.Shows.{AnswersAreShown};

use index_laws::accepted_answers_end;
use path_syntax::Language;

/// Where a language has the property of containment, what is left of a path between two vertices
/// without its closed parts has a word of the language too, and no lower least value.
pub fn cut_keeps<L: Language>(language: &L)
    ensures { CutKeeps (L.contains language.now) }
{}

/// One mark for each edge is enough: once the one of greatest deadline has expired, all others of
/// the edge have, and a delete takes them all.
pub fn one_mark_is_enough()
    ensures { OneMarkIsEnough }
{}

/// Of two paths that join a pair, the one that lasts longer shows the answer, and the other one
/// doesn't.
pub fn shown_example()
    ensures { ShownExample }
{}

/// Each answer of an accepted query has a path of entries that shows it: one that is still there at
/// the last clock before the end.
pub fn answers_are_shown()
    ensures { AnswersAreShown }
{
    accepted_answers_end();
}
