use needle::Placement;

/// What a node tells of one of its volumes.
#[derive(Clone, Copy, Debug, PartialEq, Eq)]
pub struct VolumeReport {
    pub volume: u32,
    pub placement: Placement,
    pub ttl: [u8; 2],
    /// In bytes.
    pub size: u64,
    pub read_only: bool,
}
