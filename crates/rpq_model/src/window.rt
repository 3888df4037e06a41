//! Windows, and the clock of a history.

ghost use Rattle.std.specs.Prelude.{◌≡◌, ◌≤◌};
ghost use Rattle.rpq_base.specs.OwnEnds.{own_end};
ghost use Rattle.rpq_base.specs.declared.data.TheConstants.{MAX_TIME};
ghost use Rattle.rpq_model.specs.Window.{clock, is_in_window, is_seen};

use rpq_base::{Act, Entry, MAX_TIME};
use std::marker::Model;

/// The window of a query: its size, and its slide, at whose multiples it moves. Both are from 1 to
/// [`MAX_TIME`], in the stream's own unit of time.
///
/// Source: the time-based sliding windows of Pacaci, Bonifati and Özsu, SIGMOD 2020.
#[derive(Clone, Copy, Debug, PartialEq, Eq)]
pub struct Window {
    pub size: u64,
    pub slide: u64,
}

impl Model for Window {
    ghost use Rattle.rpq_model.specs.Window.{WindowValue, HasBounds};

    ghost Value = { WindowValue };

    ghost view = { λ window. record { size = window.size; slide = window.slide } };

    ghost invariant = { λ window. HasBounds (record { size = window.size; slide = window.slide }) };

    ghost inverse = { λ window. record { size = window.size; slide = window.slide } };
}

/// The clock of a history: the greatest time in it, and 0 for the empty one. It is at most
/// [`MAX_TIME`], as each time is.
pub fn clock(history: &[Entry]) -> u64
    ensures clock { result ≡ clock history.now }
    ensures to { result ≤ MAX_TIME }
{
    let mut latest = 0;
    for entry in history {
        latest = latest.max(entry.tuple.time);
    }
    latest
}

/// The end of its own that an act gives the edge which it inserts, if it gives one.
pub fn own_end(act: &Act) -> Option<u64>
    ensures { result ≡ own_end act.now }
{
    match act {
        Act::Insert { until, .. } => *until,
        Act::Delete(_) | Act::Tick => None,
    }
}

/// Whether an edge of this time is in the window at this clock.
fn is_in_window(window: Window, now: u64, time: u64) -> bool
    requires { time ≤ MAX_TIME }
    ensures { result ≡ is_in_window window now time }
{
    now / window.slide * window.slide < time + window.size
}

/// Whether an edge of this time, with this end of its own if it has one, is seen at this clock by a
/// query with this window. The end counts as it is, whatever the slide.
pub(crate) fn is_seen(window: Window, now: u64, time: u64, until: Option<u64>) -> bool
    requires { time ≤ MAX_TIME }
    ensures { result ≡ is_seen window now time until }
{
    let is_before_end = match until {
        Some(end) => now < end,
        None => true,
    };
    is_in_window(window, now, time) && is_before_end
}
