ghost use Rattle.std.specs.Prelude.{◌≡◌, ℕ, IfOk, OnOk};
ghost use Rattle.std.specs.Option.{option_or};
ghost use Rattle.std.specs.FinMap.{get};
ghost use Rattle.topology.specs.Told.{first_report};

use crate::member::Member;
use crate::numbered::Numbered;
use crate::report::VolumeReport;
use std::alloc::{AllocError, Global};

/// Adds the reports of the volumes that have none yet.
fn add_missing(
    reports: &mut Numbered<VolumeReport>,
    told: &Numbered<VolumeReport>,
) -> Result<(), AllocError>
    ensures { OnOk result ((volume : ℕ) → get reports.new volume ≡ option_or (get reports.old volume) (get told.now volume)) }
{
    for (volume, report) in told.entries() {
        if reports.get(*volume).is_none() {
            reports.insert(*volume, *report)?;
        }
    }
    Ok(())
}

/// The first report of each volume at these nodes.
pub(crate) fn first_reports(
    alloc: Global,
    members: &[Member],
) -> Result<Numbered<VolumeReport>, AllocError>
    ensures { IfOk result (λ reports. (volume : ℕ) → get reports volume ≡ first_report volume members.now) }
{
    let mut reports = Numbered::new(alloc);
    for member in members {
        add_missing(&mut reports, &member.reports)?;
    }
    Ok(reports)
}
