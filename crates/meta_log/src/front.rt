/// How many records a log has, and the time of the last, in nanoseconds since 1970; 0 where there is none.
#[derive(Clone, Copy, Debug, PartialEq, Eq)]
pub struct Front {
    pub count: u64,
    pub time: u64,
}
