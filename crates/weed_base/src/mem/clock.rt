ghost use Rattle.std.specs.Prelude.{◌≡◌, ◌<◌, Some, length};
ghost use Rattle.weed_base.specs.Moments.{first_moment, later_moments};

use crate::clock::Clock;
use std::marker::Model;

/// A clock that gives the moments of a list, and then the last one for ever.
#[derive(Debug, Drop)]
pub struct MemClock {
    moments: Vec<u64>,
    at: usize,
}

impl Model for MemClock {
    ghost use Rattle.std.specs.Prelude.{List, ℕ, drop, length, ◌<◌};
    ghost use Rattle.std.specs.Coded.{coded_list, coded_ℕ};

    ghost Value = { List ℕ };

    ghost coded = { coded_list coded_ℕ };

    ghost view = { λ clock. drop clock.at clock.moments.items };

    ghost invariant = { λ clock. clock.at < length clock.moments.items };
}

impl MemClock {
    /// A clock of these moments, in nanoseconds since 1970.
    pub fn new(moments: Vec<u64>) -> MemClock
        requires { 0 < length moments.items }
        ensures { result ≡ moments.items }
    {
        MemClock { moments, at: 0 }
    }
}

impl Clock for MemClock {
    ghost moments = { λ clock. Some clock };

    fn now(&mut self) -> u64
        ensures moment { result ≡ first_moment self.old }
        ensures later { Some self.new ≡ Some (later_moments self.old) }
    {
        let moment = self.moments[self.at];
        if self.at + 1 < self.moments.len() {
            self.at += 1;
        }
        moment
    }
}
