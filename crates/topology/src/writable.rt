ghost use Rattle.std.specs.Prelude.{◌≡◌, ℕ, IfOk, OnOk, Some};
ghost use Rattle.std.specs.FinMap.{get, entries};
ghost use Rattle.topology.specs.Writable.{copies, is_open, is_writable, AreWritableAt, IsWritableAt};
ghost use Rattle.topology.specs.Tallies.{untold, told, tally_at, tally_of, is_met, met_in};

use crate::member::Member;
use crate::numbered::Numbered;
use crate::report::VolumeReport;
use needle::Placement;
use std::alloc::{AllocError, Global};

/// Which volumes are asked for: of this placement and time to live, and below the limit in bytes.
#[derive(Clone, Copy)]
pub(crate) struct Kind {
    pub(crate) placement: Placement,
    pub(crate) ttl: [u8; 2],
    pub(crate) limit: u64,
}

/// What the nodes so far tell of a volume.
#[derive(Clone, Copy)]
pub(crate) struct Tally {
    /// How many nodes more must report it.
    missing: u8,
    /// Whether each that reports it lets it be written.
    writable: bool,
}

impl Kind {
    /// Whether a report lets its volume be written.
    fn is_open(&self, report: &VolumeReport) -> bool
        ensures { result ≡ is_open self.now.placement self.now.ttl self.now.limit report.now }
    {
        report.placement == self.placement
            && report.ttl == self.ttl
            && !report.read_only
            && report.size < self.limit
    }

    /// The tally of a volume of which no node told.
    fn untold(&self) -> Tally
        ensures { result ≡ untold self.now }
    {
        Tally {
            missing: self.placement.x + self.placement.y + self.placement.z + 1,
            writable: true,
        }
    }

    /// The tally with one report more.
    fn told(&self, tally: Tally, report: &VolumeReport) -> Tally
        ensures { result ≡ told self.now tally (Some report.now) }
    {
        Tally {
            missing: tally.missing.saturating_sub(1),
            writable: tally.writable && self.is_open(report),
        }
    }
}

impl Tally {
    /// Whether enough nodes told of its volume, and each lets it be written.
    fn is_met(&self) -> bool
        ensures { result ≡ is_met self.now }
    {
        self.missing == 0 && self.writable
    }
}

/// Adds what one node more tells.
fn add_told(
    tallies: &mut Numbered<Tally>,
    reports: &Numbered<VolumeReport>,
    kind: &Kind,
) -> Result<(), AllocError>
    ensures { OnOk result ((volume : ℕ) → tally_at kind.now tallies.new volume ≡ told kind.now (tally_at kind.now tallies.old volume) (get reports.now volume)) }
{
    for (volume, report) in reports.entries() {
        let before = tallies.get(*volume).copied().unwrap_or(kind.untold());
        tallies.insert(*volume, kind.told(before, report))?;
    }
    Ok(())
}

/// What these nodes tell of each volume.
fn tallies_of(alloc: Global, members: &[Member], kind: &Kind) -> Result<Numbered<Tally>, AllocError>
    ensures { IfOk result (λ tallies. (volume : ℕ) → tally_at kind.now tallies volume ≡ tally_of kind.now members.now volume) }
{
    let mut tallies = Numbered::new(alloc);
    for member in members {
        add_told(&mut tallies, &member.reports, kind)?;
    }
    Ok(tallies)
}

/// The volumes of which enough nodes told and each lets it be written, rising.
fn met_volumes(alloc: Global, tallies: &Numbered<Tally>) -> Result<Vec<u32>, AllocError>
    ensures { IfOk result (λ volumes. volumes.items ≡ met_in (entries tallies.now)) }
{
    let mut volumes = Vec::new(alloc);
    for (volume, tally) in tallies.entries() {
        if tally.is_met() {
            volumes.push(*volume)?;
        }
    }
    Ok(volumes)
}

/// The volumes of a kind that may be written at these nodes, rising.
pub(crate) fn writable_volumes(
    alloc: Global,
    members: &[Member],
    kind: &Kind,
) -> Result<Vec<u32>, AllocError>
    ensures { IfOk result (λ volumes. AreWritableAt kind.now.placement kind.now.ttl kind.now.limit members.now volumes.items) }
{
    let tallies = tallies_of(alloc, members, kind)?;
    met_volumes(alloc, &tallies)
}

/// What these nodes tell of a volume.
fn tally_of(members: &[Member], volume: u32, kind: &Kind) -> Tally
    ensures { result ≡ tally_of kind.now members.now volume }
{
    let mut tally = kind.untold();
    for member in members {
        match member.reports.get(volume) {
            Some(report) => tally = kind.told(tally, report),
            None => {}
        }
    }
    tally
}

/// The volume of a report that lets it be written, if there is one. Other nodes may not let it.
fn first_open(members: &[Member], kind: &Kind) -> Option<u32> {
    for member in members {
        match member.reports.values().find(|report| kind.is_open(report)) {
            Some(report) => return Some(report.volume),
            None => {}
        }
    }
    None
}

/// Whether a volume may be written at these nodes.
fn is_writable(members: &[Member], volume: u32, kind: &Kind) -> bool
    ensures { result ≡ is_writable kind.now.placement kind.now.ttl kind.now.limit members.now volume }
{
    tally_of(members, volume, kind).is_met()
}

/// A volume of a kind that may be written at these nodes, if there is one. Mostly the first that one node lets be
/// written is one, so that not all have to be told.
pub(crate) fn writable_volume(
    alloc: Global,
    members: &[Member],
    kind: &Kind,
) -> Result<Option<u32>, AllocError>
    ensures { IfOk result (λ found. IsWritableAt kind.now.placement kind.now.ttl kind.now.limit members.now found) }
{
    match first_open(members, kind) {
        Some(volume) if is_writable(members, volume, kind) => Ok(Some(volume)),
        _ => Ok(writable_volumes(alloc, members, kind)?.first().copied()),
    }
}
