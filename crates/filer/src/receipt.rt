/// What a command came to.
#[derive(Clone, Copy, Debug, PartialEq, Eq)]
pub struct Receipt {
    /// The time of its record, in nanoseconds since 1970; none where nothing changed.
    pub time: Option<u64>,
    /// How many records there were then, its own among them.
    pub count: u64,
}
