//! How the command is used.

ghost use Rattle.std.specs.Prelude.{◌≡◌};
ghost use Rattle.rpq_words.specs.Usage.{usage};

/// The line that tells how the command is used, without a line feed.
pub fn usage_line() -> &'static str
    ensures { result.now ≡ usage }
{
    "usage: rpq [--workers N] [--history N] [--asks FILE --replies FILE] [--check] \
     [--generate N] [--two-way] [--paths] [--joins FILE] [--save FILE] [--from FILE] [--endless] \
     [--reader ASKS REPLIES]... [--faults FILE]... QUERIES [STREAM...]"
}
