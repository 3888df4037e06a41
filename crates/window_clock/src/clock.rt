//! The clock of a window, and deadlines.

ghost use Rattle.std.specs.Prelude.{◌≡◌, ◌≤◌, ◌^◌, ◌-◌, max};
ghost use Rattle.window_clock.specs.Clock.{IsDeadline, IsDeadlineOf, IsSameWindow};

use std::marker::Model;

/// The clock of a window that has a size and moves by a slide, and the deadlines of times.
///
/// The clock is the greatest time that it was told. The deadline of a time is the clock at which an
/// edge of this time has left the window. Source: the time-based sliding windows of Pacaci,
/// Bonifati and Özsu, SIGMOD 2020.
#[derive(Debug, Drop)]
pub struct WindowClock {
    size: u64,
    slide: u64,
    clock: u64,
}

impl Model for WindowClock {
    ghost use Rattle.window_clock.specs.Clock.{ClockValue, HasBounds};

    ghost Value = { ClockValue };

    ghost view = { λ clock. record {
      size = clock.size;
      slide = clock.slide;
      clock = clock.clock;
    } };

    ghost invariant = { λ clock. HasBounds clock.size clock.slide };
}

impl WindowClock {
    /// A clock at 0 for a window of this size and slide, which are both from 1 to 2^62 - 1.
    pub fn new(window: u64, slide: u64) -> WindowClock
        requires window_some { 1 ≤ window }
        requires window_bound { window ≤ 2 ^ 62 - 1 }
        requires slide_some { 1 ≤ slide }
        requires slide_bound { slide ≤ 2 ^ 62 - 1 }
        ensures size { result.size ≡ window }
        ensures slide { result.slide ≡ slide }
        ensures start { result.clock ≡ 0 }
    {
        WindowClock {
            size: window,
            slide,
            clock: 0,
        }
    }

    /// The greatest time that it was told, and 0 before any.
    pub fn clock(&self) -> u64
        ensures { result ≡ self.now.clock }
    {
        self.clock
    }

    /// Takes a time into account, and answers the clock: the greater of the clock and the time.
    pub fn advance(&mut self, time: u64) -> u64
        ensures clock { self.new.clock ≡ max self.old.clock time }
        ensures answer { result ≡ self.new.clock }
        ensures window { IsSameWindow self.old self.new }
    {
        self.clock = self.clock.max(time);
        self.clock
    }

    /// The deadline of a time: the least multiple of the slide that is at least the time and the
    /// size of the window together. The time is at most 2^62 - 1.
    pub fn deadline(&self, time: u64) -> u64
        requires { time ≤ 2 ^ 62 - 1 }
        ensures { IsDeadline self.now time result }
    {
        (time + self.size).div_ceil(self.slide) * self.slide
    }

    /// The deadline of an insert of this time with this end of its own: that of its time, or the
    /// end where that is less. The time is at most 2^62 - 1.
    pub fn entry_deadline(&self, time: u64, until: Option<u64>) -> u64
        requires { time ≤ 2 ^ 62 - 1 }
        ensures { IsDeadlineOf self.now time until result }
    {
        let deadline = self.deadline(time);
        match until {
            Some(end) => deadline.min(end),
            None => deadline,
        }
    }
}
