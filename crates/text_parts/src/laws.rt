//! Laws of the definitions. The functions do nothing: their contracts are the laws.

ghost use Rattle.std.specs.Prelude.{ℕ, List};
ghost use Rattle.text_parts.specs.EndedLines.{EndedLinesAreTheText};
ghost use Rattle.text_parts.specs.Fields.{FieldsByRuns, JoinedFieldsAreRead};
ghost use Rattle.text_parts.specs.Lines.{LinesAreTheText, ReturnIsDropped};
ghost use Rattle.text_parts.specs.Numbers.{DecimalIsRead};

/// The raw lines of a text, each followed by a line feed, are the text, up to the line feed that
/// its end may lack.
pub fn lines_are_the_text()
    ensures { LinesAreTheText }
{}

/// The lines that end with a line feed, and then what stands after the last one, are the text.
pub fn ended_lines_are_the_text()
    ensures { EndedLinesAreTheText }
{}

/// A line loses one carriage return at its end, and nothing else.
pub fn return_is_dropped()
    ensures { (line : List ℕ) → ReturnIsDropped line }
{}

/// The fields of a line are its runs between blanks, wherever spaces and tabs stand, and however
/// many.
pub fn fields_by_runs()
    ensures { FieldsByRuns }
{}

/// Fields that are written with one space between each two are read as the same fields.
pub fn joined_fields_are_read()
    ensures { JoinedFieldsAreRead }
{}

/// A number that is written in decimal is read as the same number, and has no zeros in front.
pub fn decimal_is_read()
    ensures { DecimalIsRead }
{}
