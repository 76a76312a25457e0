ghost use Rattle.std.specs.Prelude.{◌≡◌, ◌↔◌, IsTrue, IsErr};
ghost use Rattle.weed_base.specs.Told.{HasCause};
ghost use Rattle.weed_base.specs.Calls.{uncalled, fails_next, called};

use std::marker::Model;
use weed_base::{Failed, Faults};

/// How many calls were made, which of them fail, and how many failed.
#[derive(Debug, Drop)]
pub struct Calls {
    made: u64,
    failing: Vec<u64>,
    faults: Faults,
}

impl Model for Calls {
    ghost use Rattle.weed_base.specs.Calls.{CallState};

    ghost Value = { CallState };

    ghost view = { λ calls. record { made = calls.made; failing = calls.failing.items; from = 18446744073709551615; faults = calls.faults } };
}

impl Calls {
    /// Calls of which those with these numbers fail. Numbers count from 0.
    pub fn new(failing: Vec<u64>) -> Calls
        ensures { result ≡ uncalled failing.items }
    {
        Calls {
            made: 0,
            failing,
            faults: Faults::new(),
        }
    }

    /// How many failed.
    pub fn faults(&self) -> u64
        ensures { result ≡ self.now.faults }
    {
        self.faults.count()
    }

    fn fails_next(&self) -> bool
        ensures { result ≡ fails_next self.now }
    {
        self.made == u64::MAX || self.failing.contains(&self.made)
    }

    /// Begins a call, and counts the fault where it fails.
    pub fn begin(&mut self) -> Result<(), Failed>
        ensures fails { IsErr result ↔ IsTrue (fails_next self.old) }
        ensures after { self.new ≡ called self.old }
        ensures cause { HasCause self.old.faults self.new.faults result }
    {
        let fails = self.fails_next();
        self.made = self.made.saturating_add(1);
        if fails {
            return Err(self.faults.raise());
        }
        Ok(())
    }
}
