ghost use Rattle.std.specs.Prelude.{◌≡◌, ◌≤◌, ◌<◌, ◌-◌, ◌^◌, length, IsSome};
ghost use Rattle.std.proofs.Common.{rules};

use crate::outlet::Outlet;
use std::alloc::{AllocError, Global};
use weed_base::LogText;

/// An outlet that nobody reads from: it keeps how long its list is, and stands for each list of that length.
#[derive(Debug, Drop)]
pub struct ListOutlet {
    count: u64,
    offered: Option<LogText>,
    ghost bounded: { count ≤ 2 ^ 63 - 1 },
    ghost room: { IsSome offered → count < 2 ^ 63 - 1 },
}

impl Outlet for ListOutlet {
    type Seed = ();

    ghost StandsFor = { λ outlet list. length list ≡ outlet.count };

    ghost count = { λ outlet. outlet.count };

    ghost offered = { λ outlet. outlet.offered };

    fn start(
        alloc: Global,
        seed: (),
        log: &[LogText],
        before: u64,
    ) -> Result<ListOutlet, AllocError> {
        Ok(ListOutlet {
            count: before + log.len() as u64,
            offered: None,
        })
    }

    fn offer(&mut self, alloc: Global, text: LogText) -> Result<(), AllocError> {
        self.offered = Some(text);
        Ok(())
    }

    fn publish(&mut self) {
        self.offered = None;
        self.count += 1;
    }

    ghost counts = { λ outlet list stands. stands };
}
