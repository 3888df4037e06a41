//! Laws of verdicts, for each language. The functions do nothing: their contracts are the laws.

ghost use Rattle.containment_test.specs.Laws.{EmptyWordIsNoMatter, OneVerdict, SecondIsOneLabel};

use path_syntax::Language;

/// A language has at most one verdict: at most one least triple, and none where it has the
/// property.
pub fn one_verdict<L: Language>(language: &L)
    ensures { OneVerdict (L.contains language.now) }
{}

/// Whether the empty word is in the language doesn't matter to the verdict.
pub fn empty_word_is_no_matter<L: Language, M: Language>(language: &L, other: &M)
    ensures { EmptyWordIsNoMatter (L.contains language.now) (M.contains other.now) }
{}

/// Of the least three words the second is one label.
pub fn second_is_one_label<L: Language>(language: &L)
    ensures { SecondIsOneLabel (L.contains language.now) }
{}
