//! Laws of the definitions. The functions do nothing: their contracts are the laws.

ghost use Rattle.tuple_text.specs.Parts.{LineByParts};
ghost use Rattle.tuple_text.specs.Written.{WrittenIsRead, WrittenIsShort, WrittenLinesAreRead};

use text_parts::{decimal_is_read, joined_fields_are_read};

/// Exactly when a line gives nothing, which tuple it gives, and which fault.
pub fn line_by_parts()
    ensures { LineByParts }
{}

/// A tuple that is written is read as the same tuple.
pub fn written_is_read()
    ensures { WrittenIsRead }
{
    joined_fields_are_read();
    decimal_is_read();
}

/// A tuple that is written is short.
pub fn written_is_short()
    ensures { WrittenIsShort }
{}

/// Tuples that are written with a line feed after each are read as the same tuples, one a line.
pub fn written_lines_are_read()
    ensures { WrittenLinesAreRead }
{
    decimal_is_read();
    written_is_read();
}
