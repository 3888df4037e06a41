//! Laws of the definitions. The functions do nothing: their contracts are the laws.

ghost use Rattle.text_items.specs.Examples.{ItemExamples};
ghost use Rattle.text_items.specs.Laws.{LimitExamples, TextByParts};

use crate::lines::LineItems;

/// The items of a text and its end, by its parts: the lines before the first that ends the reading,
/// and that line.
pub fn text_by_parts<L: LineItems>(lines: &L)
    ensures { TextByParts (L.reading lines.now) }
{}

/// The longest line and the longest texts that are read, and those of one byte more.
pub fn limit_examples<L: LineItems>(lines: &L)
    ensures { LimitExamples (L.reading lines.now) }
{}

/// What some texts give by their lines' lengths.
pub fn item_examples()
    ensures { ItemExamples }
{}
