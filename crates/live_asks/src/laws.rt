//! Laws of the definitions. The functions do nothing: their contracts are the laws.

ghost use Rattle.live_asks.specs.Examples.{LiveExamples};
ghost use Rattle.live_asks.specs.Laws.{AsksAreASession, LinesAskByParts};

/// What a line asks, by its parts.
pub fn lines_ask_by_parts()
    ensures { LinesAskByParts }
{}

/// A text that asks nothing but asks is a session with the same asks.
pub fn asks_are_a_session()
    ensures { AsksAreASession }
{}

/// What some lines ask, and what some items are answered with.
pub fn live_examples()
    ensures { LiveExamples }
{}
