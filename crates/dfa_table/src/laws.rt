//! Laws of runs. The functions do nothing: their contracts are the laws.

ghost use Rattle.dfa_table.specs.Laws.{AcceptedWordsPass, LabelsHavePlaces, OneNumbering, RunsGoByNumbers, RunsJoin, RunsStayWithin, StartIsApart};

/// A nonempty word never leads to the start, and the empty word isn't accepted.
pub fn start_is_apart()
    ensures { StartIsApart }
{}

/// A word that is one word and then another leads where the second leads from where the first
/// leads to.
pub fn runs_join()
    ensures { RunsJoin }
{}

/// A word leads from a state to a state.
pub fn runs_stay_within()
    ensures { RunsStayWithin }
{}

/// The number of a label is the place where it stands.
pub fn labels_have_places()
    ensures { LabelsHavePlaces }
{}

/// The words that are accepted are those that pass the test from the start.
pub fn accepted_words_pass()
    ensures { AcceptedWordsPass }
{}

/// A word leads where the numbers of its labels lead, and a word that leads somewhere has
/// numbers.
pub fn runs_go_by_numbers()
    ensures { RunsGoByNumbers }
{}

/// Of automata that are alike, one alone has its states in the order of discovery.
pub fn one_numbering()
    ensures { OneNumbering }
{}
