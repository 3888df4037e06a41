//! Laws of levels and of least words. The functions do nothing: their contracts are the laws.

ghost use Rattle.state_pairs.specs.Laws.{OneListOfLevels, OneLeastExtra};

/// A graph has one list of levels.
pub fn one_list_of_levels()
    ensures { OneListOfLevels }
{}

/// Of the words that a state accepts beside another one alone is the least.
pub fn one_least_extra()
    ensures { OneLeastExtra }
{}
