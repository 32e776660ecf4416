//! The lines of the control front, and what was done at them.
use farm_base::Listed;
use farm_history::{Renewed, Restyled, Tally, Updated};

/// What a line asks for.
#[derive(Clone, Copy)]
pub enum Line {
    /// `update N`: an update of the data.
    Update(u32),
    /// `restyle N`: a change of style.
    Restyle(u32),
    /// `renew N`: an update that expires what it reaches.
    Renew(u32),
    /// `expire N`: the tiles of a list are expired.
    Expire(u32),
    /// `stats`: the farm's counts.
    Stats,
    /// `stop`: the farm is stopped.
    Stop,
    /// Any other line.
    Bad,
}

/// A line that was done, with what the farm answered.
pub enum Act {
    Updates(u32, Updated),
    Restyles(u32, Restyled),
    Renews(u32, Renewed),
    /// For each tile of the list that was expired, how many clean metatiles it made dirty.
    Expires(u32, Listed<u64>),
    Counts(Tally),
    Stops,
    Refuses,
}
