ghost use Rattle.std.specs.Prelude.{◌≡◌};
ghost use Rattle.master.specs.Turns.{greatest_volume};

use topology::{Node, VolumeReport};
use weed_base::Items;

/// The volumes that a node reports.
pub type HeartbeatVolumes = Items<VolumeReport>;

/// What a node tells of itself from time to time.
#[derive(Debug, Drop)]
pub struct Heartbeat {
    pub node: Node,
    pub volumes: HeartbeatVolumes,
    /// The greatest key of a needle that it has, 0 where it has none.
    pub greatest: u64,
}

/// The greatest number of these volumes, 0 where there are none.
pub(crate) fn greatest_volume(reports: &[VolumeReport]) -> u32
    ensures { result ≡ greatest_volume reports.now }
{
    reports.iter().fold(0, |top, report| top.max(report.volume))
}
