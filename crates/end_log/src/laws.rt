//! Laws of the log of ends. The functions do nothing: their contracts are the laws.

ghost use Rattle.end_log.specs.Log.{LogsAreOne};

/// Two logs of one change have the same ends, in one order or another.
pub fn logs_are_one()
    ensures { LogsAreOne }
{}
