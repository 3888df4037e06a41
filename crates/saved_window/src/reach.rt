//! How far back the windows of queries reach.

ghost use Rattle.std.specs.Prelude.{◌≡◌, ◌||◌, ℕ, nat_le};
ghost use Rattle.rpq_model.specs.Window.{is_in_window};
ghost use Rattle.saved_window.specs.Reach.{reaches, ReachesForAll};

use rpq_model::{QueryDef, Window};

/// The first time that is in the window at a clock.
pub(crate) fn first_time(window: Window, now: u64) -> u64
    ensures { (time : ℕ) → is_in_window window now time ≡ nat_le result time }
{
    (now / window.slide * window.slide).saturating_sub(window.size - 1)
}

/// Of a window, if there is one, and another, the one that reaches back further at a clock.
fn further(found: Option<Window>, window: Window, now: u64) -> Window
    ensures { (time : ℕ) → is_in_window result now time
        ≡ (reaches found now time || is_in_window window now time) }
{
    match found {
        Some(other) if first_time(other, now) <= first_time(window, now) => other,
        _ => window,
    }
}

/// The window that reaches back furthest at a clock among those of the queries: a time is in it
/// exactly where it is in one of theirs. None where there are no queries.
pub(crate) fn furthest(queries: &[QueryDef], now: u64) -> Option<Window>
    ensures { ReachesForAll queries.now now result }
{
    let mut found = None;
    for query in queries {
        found = Some(further(found, query.window, now));
    }
    found
}
