use file_id::Fid;
use topology::Location;
use weed_base::{Items, Name};

/// Keys that were given: `count` of them from the one of `fid` on, for needles of its volume and cookie.
#[derive(Debug, Drop)]
pub struct Assigned {
    pub fid: Fid,
    pub count: u64,
    /// Where the volume is reached.
    pub location: Location,
}

/// The ids of the nodes that are to make a volume.
pub type GrownNodes = Items<Name>;

/// A volume that is to be made, and where.
#[derive(Debug, Drop)]
pub struct Grown {
    pub volume: u32,
    pub nodes: GrownNodes,
}
