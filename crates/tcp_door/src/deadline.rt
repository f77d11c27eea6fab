//! How long a peer is waited for. A clause sees how many seconds, and at which reading of the clock they are over, once
//! they have begun.
ghost use Rattle.std.specs.Prelude.{◌≡◌, ◌+◌, ◌<◌, None, IfNone, IfSome};
ghost use Rattle.std.specs.Duration.{as_nanos};
ghost use Rattle.std.specs.Time.{FitsClock, instant_nanos};
ghost use Rattle.tcp_door.specs.Time.{IsOver, begun, end_from};

use std::marker::Model;
use std::time::{Duration, Instant};

/// How many seconds a peer is waited for in all until its request is read, and again until it has taken its response.
pub(crate) const WAIT: u64 = 10;

/// How many seconds a peer is waited for in all until it closes its own side, after its response.
pub(crate) const LAST_WAIT: u64 = 2;

/// A time for all waits together, which begins with the first of them.
#[derive(Debug, Drop)]
pub struct Deadline {
    seconds: u64,
    until: Option<Instant>,
}

impl Model for Deadline {
    ghost use Rattle.std.specs.Prelude.{option_map};
    ghost use Rattle.std.specs.Time.{instant_nanos};
    ghost use Rattle.tcp_door.specs.Time.{TimeSeen};

    ghost Value = { TimeSeen };

    ghost view = { λ d. record { seconds = d.seconds; until = option_map instant_nanos d.until } };
}

impl Deadline {
    /// A deadline so many seconds after the beginning of the first wait.
    pub fn after(seconds: u64) -> Deadline
        ensures { result ≡ record { seconds = seconds; until = None } }
    {
        Deadline {
            seconds,
            until: None,
        }
    }

    /// The time that is left now, or none where it is over. The first call begins it, and no later one changes its end.
    pub fn left(&mut self, now: Instant) -> Option<Duration>
        ensures begun { IfSome result (λ _. self.new ≡ begun self.old (instant_nanos now)) }
        ensures left { IfSome result (λ left. (0 < as_nanos left)
            × (instant_nanos now + as_nanos left ≡ end_from self.old (instant_nanos now))) }
        ensures over { IfNone result ((self.new ≡ self.old) × IsOver self.old (instant_nanos now)) }
    {
        let until = self.end(now)?;
        let left = until.checked_duration_since(now)?;
        if left.is_zero() {
            return None;
        }
        self.until = Some(until);
        Some(left)
    }

    /// When the time is over which begins now, if it has not begun yet. None where the clock does not go so far.
    fn end(&self, now: Instant) -> Option<Instant>
        ensures end { IfSome result (λ end. instant_nanos end ≡ end_from self.now (instant_nanos now)) }
        ensures beyond { IfNone result (¬ FitsClock (end_from self.now (instant_nanos now))) }
    {
        match self.until {
            Some(until) => Some(until),
            None => now.checked_add(Duration::from_secs(self.seconds)),
        }
    }
}
