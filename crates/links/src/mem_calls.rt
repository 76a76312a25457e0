ghost use Rattle.std.specs.Prelude.{◌≡◌, ◌≤◌, ◌↔◌, IsTrue, IsErr};
ghost use Rattle.weed_base.specs.Told.{HasCause};
ghost use Rattle.weed_base.specs.Calls.{uncalled, fails_next, with_fault, called};

use std::marker::Model;
use weed_base::{Failed, Faults};

/// The calls of one kind: how many were made, which of them fail, and how many failed.
#[derive(Debug, Drop)]
pub(crate) struct MemCalls {
    made: u64,
    failing: Vec<u64>,
    faults: Faults,
}

impl Model for MemCalls {
    ghost use Rattle.std.specs.Prelude.{◌-◌, ◌^◌};
    ghost use Rattle.weed_base.specs.Calls.{CallState};

    ghost Value = { CallState };

    ghost view = { λ calls. record { made = calls.made; failing = calls.failing.items; from = 2 ^ 64 - 1; faults = calls.faults } };
}

impl MemCalls {
    /// Calls of which those with these numbers fail. Numbers count from 0.
    pub(crate) fn new(failing: Vec<u64>) -> MemCalls
        ensures { result ≡ uncalled failing.items }
    {
        MemCalls {
            made: 0,
            failing,
            faults: Faults::new(),
        }
    }

    /// How many failed.
    pub(crate) fn faults(&self) -> u64
        ensures { result ≡ self.now.faults }
    {
        self.faults.count()
    }

    /// Begins a call, and counts the fault where it fails.
    pub(crate) fn begin(&mut self) -> Result<(), Failed>
        ensures fails { IsErr result ↔ IsTrue (fails_next self.old) }
        ensures after { self.new ≡ called self.old }
        ensures cause { HasCause self.old.faults self.new.faults result }
    {
        let fails = self.made == u64::MAX || self.failing.contains(&self.made);
        self.made = self.made.saturating_add(1);
        if fails {
            return Err(self.faults.raise());
        }
        Ok(())
    }

    /// Counts a fault of the call that has begun.
    pub(crate) fn fail(&mut self) -> Failed
        ensures after { self.new ≡ with_fault self.old }
        ensures later { self.old.faults ≤ self.new.faults }
    {
        self.faults.raise()
    }
}
