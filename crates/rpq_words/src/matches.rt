//! What the command found in the words.

ghost use Rattle.std.specs.Prelude.{◌≡◌, map, option_map, unwrap_or, []};
ghost use Rattle.clap.specs.Walk.{all_of, first_of, rows_of};
ghost use Rattle.clap.specs.Matches.{found_of};
ghost use Rattle.rpq_words.specs.Found.{has_flag};

use clap::ArgMatches;

/// The first value of the argument.
pub(crate) fn first_of<'a>(matches: &ArgMatches<'a>, name: &str) -> Option<&'a str>
    ensures { option_map (λ text. text.now) result
        ≡ first_of name.now (rows_of (found_of matches.now)) }
{
    matches.get_str(name)
}

/// All values of the argument.
pub(crate) fn all_of<'m>(matches: &'m ArgMatches<'_>, name: &str) -> &'m [&'m str]
    ensures { map (λ text. text.now) result.now
        ≡ unwrap_or (all_of name.now (rows_of (found_of matches.now))) [] }
{
    matches.get_strs(name).unwrap_or(&[])
}

/// Whether the flag stands there.
pub(crate) fn has_flag(matches: &ArgMatches<'_>, name: &str) -> bool
    ensures { result ≡ has_flag name.now (rows_of (found_of matches.now)) }
{
    match first_of(matches, name) {
        Some(text) => "true" == text,
        None => false,
    }
}
