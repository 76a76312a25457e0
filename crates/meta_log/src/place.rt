/// A place in a log: a segment by its number, and a byte of it.
#[derive(Clone, Copy, Debug, PartialEq, Eq)]
pub struct Place {
    pub segment: u32,
    pub at: u64,
}
