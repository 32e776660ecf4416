//! What the fronts answer at their end.
use farm_base::Bytes;

/// How a front ended.
#[derive(Clone, Copy, PartialEq, Eq)]
pub enum FrontEnd {
    /// Its ports finished.
    Finished,
    /// The farm was stopped.
    Stopped,
    /// Its ports broke.
    Broken,
    /// The farm's limit of turns was drawn.
    Worn,
    /// Want of memory.
    NoMemory,
}

/// The bytes of a connection that were answered and not taken.
#[derive(Drop)]
pub struct Rest {
    /// The front's number: 0 renderd, 1 tiles, 2 control.
    pub front: u32,
    /// The connection's number.
    pub conn: u32,
    pub bytes: Bytes,
}

/// What a front hands back.
#[derive(Drop)]
pub struct FrontDone {
    pub end: FrontEnd,
    /// One for each connection that was there at the end, in the order in which they were opened.
    pub rests: Vec<Rest>,
    /// How many connections were closed for a want of memory which no entry of the history shows; it
    /// stands still at its last value.
    pub starved: u64,
}
