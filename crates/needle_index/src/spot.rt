/// Where a needle lies in its volume, and how long its counted parts are.
#[derive(Clone, Copy, Debug, PartialEq, Eq)]
pub struct Spot {
    /// In units of 8 bytes.
    pub offset: u32,
    /// In bytes.
    pub size: u32,
}
