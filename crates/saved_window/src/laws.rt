//! Laws of the definitions. The functions compute nothing: their contracts are the laws, and a law
//! that rests on one of the layers below calls it.

ghost use Rattle.saved_window.specs.Alike.{SavedKeepsTheStore, SavedOfMore};
ghost use Rattle.saved_window.specs.Continues.{SavedContinues};
ghost use Rattle.saved_window.specs.Example.{SavedExample};
ghost use Rattle.saved_window.specs.SavedText.{SavedTextIsRead};

use rpq_base::same_is_equal;
use tuple_text::{written_is_short, written_lines_are_read};

/// What is saved of a history stands in its place: whatever entries follow, each query has the same
/// answers, with the same ends, and a further entry brings the same events.
pub fn saved_continues()
    ensures { SavedContinues }
{
    same_is_equal()
}

/// What is saved of a history has the same clock, and from there on each query sees the same edges.
pub fn saved_keeps_the_store()
    ensures { SavedKeepsTheStore }
{
    same_is_equal()
}

/// Of what is saved of a history and further entries the same is saved as of the history and these
/// entries. So a history may be replaced by what is saved of it at any time.
pub fn saved_of_more()
    ensures { SavedOfMore }
{
    same_is_equal()
}

/// A small history, and what is saved of it.
pub fn saved_example()
    ensures { SavedExample }
{}

/// The text of tuples is read back as these tuples by the grammar of a stream, alone and in front
/// of another text, whatever becomes of faulty lines. None of its lines is faulty.
pub fn saved_text_is_read()
    ensures { SavedTextIsRead }
{
    written_is_short();
    written_lines_are_read();
}
