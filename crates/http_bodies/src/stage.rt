/// Where a body stands.
#[derive(Clone, Copy, Debug, PartialEq, Eq)]
pub enum Stage {
    /// So many bytes come, and end it.
    Length(u64),
    /// Its stated length is over the limit.
    Over,
    /// A chunk's line comes, and so much data at most.
    Line(u64),
    /// So many bytes of a chunk come, and the line end behind it.
    Chunk {
        left: u64,
        /// How much data may come behind it.
        allowed: u64,
    },
    /// Trailer lines of so many bytes at most come, and an empty line.
    Trailers(usize),
}
