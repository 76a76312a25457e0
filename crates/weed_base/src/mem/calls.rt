ghost use Rattle.std.specs.Prelude.{◌≡◌, ◌≤◌, ◌<◌, ◌+◌, ◌-◌, ◌^◌, ◌↔◌, IsTrue, IsErr, OnOk};
ghost use Rattle.weed_base.specs.Told.{HasCause};
ghost use Rattle.weed_base.specs.Calls.{uncalled, fails_next, with_fault, called};

use crate::faults::Faults;
use crate::source::Failed;
use std::marker::Model;

/// The calls of a memory form: how many were made, which of them fail, the number from which on all fail, and
/// how many failed.
#[derive(Debug, Drop)]
pub(crate) struct Calls {
    made: u64,
    failing: Vec<u64>,
    from: u64,
    faults: Faults,
}

impl Model for Calls {
    ghost use Rattle.weed_base.specs.Calls.{CallState};

    ghost Value = { CallState };

    ghost view = { λ calls. record { made = calls.made; failing = calls.failing.items; from = calls.from; faults = calls.faults } };
}

impl Calls {
    /// Calls of which those with these numbers fail. Numbers count from 0.
    pub(crate) fn new(failing: Vec<u64>) -> Calls
        ensures { result ≡ uncalled failing.items }
    {
        Calls {
            made: 0,
            failing,
            from: u64::MAX,
            faults: Faults::new(),
        }
    }

    /// How many were made.
    pub(crate) fn made(&self) -> u64
        ensures { result ≡ self.now.made }
    {
        self.made
    }

    pub(crate) fn faults(&self) -> u64
        ensures { result ≡ self.now.faults }
    {
        self.faults.count()
    }

    fn fails_next(&self) -> bool
        ensures value { result ≡ fails_next self.now }
        ensures limit { self.now.from < 2 ^ 64 }
        ensures spent { self.now.made ≡ 2 ^ 64 - 1 → IsTrue (fails_next self.now) }
    {
        self.from <= self.made || self.failing.contains(&self.made)
    }

    /// Makes all calls from this number on fail.
    pub(crate) fn fail_from(&mut self, number: u64)
        ensures { self.new ≡ record self.old { from = number } }
    {
        self.from = number;
    }

    /// Begins a call, and counts the fault where it fails.
    pub(crate) fn begin(&mut self) -> Result<(), Failed>
        ensures fails { IsErr result ↔ IsTrue (fails_next self.old) }
        ensures spent { self.old.made ≡ 2 ^ 64 - 1 → IsErr result }
        ensures after { self.new ≡ called self.old }
        ensures later { self.old.made ≤ self.new.made }
        ensures next { OnOk result (self.new.made ≡ self.old.made + 1) }
        ensures cause { HasCause self.old.faults self.new.faults result }
    {
        let fails = self.fails_next();
        self.made = self.made.saturating_add(1);
        if fails {
            return Err(self.faults.raise());
        }
        Ok(())
    }

    /// Counts a fault of the call that has begun.
    pub(crate) fn fail(&mut self) -> Failed
        ensures after { self.new ≡ with_fault self.old }
        ensures later { self.old.faults ≤ self.new.faults }
    {
        self.faults.raise()
    }
}
