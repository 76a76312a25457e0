/// What a command is handed of the outside.
#[derive(Debug, Drop)]
pub struct World<S, H, C> {
    /// Where the requests come from.
    pub source: S,
    /// The disk, and the way out for the answers.
    pub host: H,
    pub clock: C,
}
