//! Laws of the definitions. The functions do nothing: their contracts are the laws.

ghost use Rattle.standing.specs.Laws.{CountingExamples, TextExamples};
ghost use Rattle.standing.specs.Laws.{StandByTelling, NoneGoneStays};

/// Objects stand while a circle of them is told of events, of all or of a front.
pub fn objects_stand()
    ensures { StandByTelling }
{}

/// Where no object was gone at first, none of those that stayed is.
pub fn none_gone_stays()
    ensures { NoneGoneStays }
{}

/// Numbers are counted on up to the greatest, and stay there.
pub fn counting_examples()
    ensures { CountingExamples }
{}

/// What objects say, and what a tail keeps.
pub fn text_examples()
    ensures { TextExamples }
{}
