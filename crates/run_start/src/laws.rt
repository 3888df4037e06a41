//! Laws of the definitions. The functions compute nothing: their contracts are the laws, and a law
//! that rests on one of the layers below calls it.

ghost use Rattle.run_start.specs.Laws.{ReadInOrder, ReadWholeInOrder, SavedComesFirst};
ghost use Rattle.run_start.specs.Laws.{WrittenInOrder};

use saved_window::saved_text_is_read;

/// In which order the files of a run are opened, and which of them are where it doesn't begin.
pub fn files_are_in_order()
    ensures read { ReadInOrder }
    ensures whole { ReadWholeInOrder }
    ensures written { WrittenInOrder }
{}

/// A run that begins with a saved window reads the saved tuples, and then those of its stream.
pub fn saved_comes_first()
    ensures { SavedComesFirst }
{
    saved_text_is_read();
}
