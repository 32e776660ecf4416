//! What a farm counts, as it keeps it and as contracts see it.

/// What a farm counts.
#[derive(Clone, Copy)]
pub struct Counts {
    /// How many calls came.
    pub turns: u64,
    /// Whether a Stop came.
    pub stopped: bool,
    /// How many updates succeeded.
    pub version: u64,
    /// How many asks were given a number.
    pub numbers: u64,
    /// How many drawings were claimed.
    pub jobs: u64,
    /// How many asks had a render command.
    pub asks: u64,
    /// How many asks were answered Done, or had a reply Done that was collected.
    pub done: u64,
    /// How many drawings were stored.
    pub stored: u64,
}
