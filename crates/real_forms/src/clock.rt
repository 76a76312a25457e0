ghost use Rattle.std.specs.Prelude.{◌≡◌, None};

use std::rt;
use weed_base::Clock;

/// The clock of the system. Where it can't be read, or lies before 1970, its moment is 0, and past the end
/// of its type it is that end.
#[derive(Drop)]
pub struct SystemClock<R> {
    rt: R,
}

impl<R: rt::Clock> SystemClock<R> {
    /// The clock of this runtime.
    pub fn new(rt: R) -> SystemClock<R>
        ensures { result ≡ record { rt = rt } }
    {
        SystemClock { rt }
    }
}

impl<R: rt::Clock> Clock for SystemClock<R> {
    ghost moments = { λ _. None };

    fn now(&mut self) -> u64 {
        match self.rt.since_1970() {
            Ok(elapsed) => u64::try_from(elapsed.as_nanos()).unwrap_or(u64::MAX),
            Err(_) => 0,
        }
    }
}
